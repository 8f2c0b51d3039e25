//! The texts around the traces of a page.

/// The text before the style sheet: no script, and nothing from elsewhere.
pub(crate) const START: &str = "<!DOCTYPE html>
<html lang=en><head><meta charset=utf-8><title>Traces</title>
<meta name=viewport content=\"width=device-width, initial-scale=1\">
<meta http-equiv=Content-Security-Policy content=\"default-src 'none'; style-src 'unsafe-inline'\">
<style>
";

/// The style sheet. It has no `<`, so it doesn't end its element.
pub(crate) const STYLE: &str =
    ":root{color-scheme:light dark;--back:#fff;--text:#1b1f24;--faint:#57606a;--line:#d8dee4;
--over:#f3f5f8;--bar:#2f6fde;--ok:#1a7f37;--error:#c4232b}
@media(prefers-color-scheme:dark){:root{--back:#0f1318;--text:#e6eaef;--faint:#9aa5b1;
--line:#2b323b;--over:#1a2028;--bar:#5b96f7;--ok:#4ac26b;--error:#ff7b72}}
*{box-sizing:border-box}
body{margin:0;background:var(--back);color:var(--text);font:14px/1.45 system-ui,sans-serif}
main{max-width:1600px;margin:auto;padding:16px}
h1{font-size:20px;margin:0 0 12px}
main:not(:has(details))::after{content:'There are no traces.'}
summary{cursor:pointer;list-style:none}
summary::-webkit-details-marker{display:none}
summary:hover{background:var(--over)}
summary:focus-visible{outline:2px solid var(--bar);outline-offset:-2px}
.trace{border:1px solid var(--line);border-radius:6px;margin-bottom:12px;overflow:hidden}
.trace>summary{display:flex;flex-wrap:wrap;gap:2px 16px;padding:8px 12px;align-items:baseline}
.trace>summary>.name{font-weight:600;max-width:100%}
.trace>summary>.name::before,.row>summary>.name::before{content:'\\25b8';display:inline-block;
width:1em;margin-right:4px;color:var(--faint)}
.trace[open]>summary{border-bottom:1px solid var(--line)}
.trace[open]>summary>.name::before,.row[open]>summary>.name::before{content:'\\25be'}
bdi:empty::after{content:'(none)';color:var(--faint);font-weight:400}
.name,.service{overflow:hidden;text-overflow:ellipsis;white-space:nowrap}
.service,.start,.count,.time,.at,.id,.absent,dt{color:var(--faint)}
.time,.count,.at{font-variant-numeric:tabular-nums;white-space:nowrap}
.errors,.error>summary>.status,.error>div>h3+dl>dt:first-child+dd{color:var(--error);
font-weight:600}
.ok>summary>.status{color:var(--ok)}
.id,.absent{margin:0;padding:4px 12px;overflow-wrap:anywhere}
.row>summary{display:grid;align-items:center;gap:0 12px;padding:2px 12px;
grid-template-columns:minmax(0,5fr) minmax(0,2fr) 72px minmax(0,8fr) 40px}
.row>summary>.name{padding-left:calc(min(var(--depth),12)*14px)}
.row .time{text-align:right}
svg{display:block;width:100%;height:16px;background:linear-gradient(var(--line),var(--line))
0 50%/100% 1px no-repeat}
rect{fill:var(--bar);stroke:var(--bar);vector-effect:non-scaling-stroke}
.error>summary rect{fill:var(--error);stroke:var(--error)}
.row rect.mark{fill:var(--text)!important;stroke:var(--back)!important}
.row>div{padding:8px 12px 12px 32px;border-block:1px solid var(--line);background:var(--over)}
h3{font-size:15px;margin:0 0 8px;overflow-wrap:anywhere;white-space:pre-wrap}
h4{font-size:13px;margin:12px 0 4px}
h4:has(+:empty){display:none}
dl{display:grid;grid-template-columns:fit-content(40%) minmax(0,1fr);gap:2px 16px;margin:0}
dt,dd{margin:0;overflow-wrap:anywhere;white-space:pre-wrap}
ol{margin:0;padding:0;list-style:none}
li{padding:4px 0;overflow-wrap:anywhere}
li dl{padding-left:16px}
@media(max-width:700px){main{padding:8px}
.row>summary{grid-template-columns:minmax(0,1fr) auto auto;padding:6px 8px}
.row>summary>.service{order:1;grid-column:1}
.row>summary>.time{order:2}.row>summary>.status{order:3}
.row>summary>svg{order:4;grid-column:1/-1;margin-top:2px}
.row>summary>.name{grid-column:1/-1;padding-left:calc(min(var(--depth),6)*8px)}
.row>div{padding-left:12px}.trace>summary,.id,.absent{padding-left:8px;padding-right:8px}}
";

/// The text between the style sheet and the traces.
pub(crate) const BODY: &str = "</style></head>\n<body><main><h1>Traces</h1>\n";

/// The text after the traces.
pub(crate) const END: &str = "</main></body></html>\n";
