//! How a collector is reached.
ghost use Rattle.std.specs.Prelude.{◌≡◌, [], codes, IfOk, OnOk, IfErr, IsErr, IsTrue, ◌↔◌};
ghost use Rattle.std.specs.Prelude.{true, false, string_bytes, if◌then◌else◌, alloc_error};
ghost use Rattle.http_header.specs.HeaderMap.{insert};
ghost use Rattle.http_header.specs.FieldName.{IsFieldName};
ghost use Rattle.http_header.specs.FieldValue.{plain_value, IsFieldValue};
ghost use Rattle.http_header.specs.Token.{lowercase};
ghost use Rattle.otel_otlp.specs.HttpConfig as spec;
ghost use Rattle.otel_otlp.specs.declared.otlp_http.config.ConfigError.TheVariants.{Memory};

mod texts;

use http::header::{HeaderMapError, HeaderNameError, HeaderValueError};
use http::request::Parts;
use http::{HeaderMap, HeaderName, HeaderValue, Method, Uri, Version};
use http_uri::UriError;
use otel_base::cut_blanks;
use std::alloc::{AllocError, Global};
use std::marker::Model;
use thiserror::Error;

/// The reason why a configuration was refused.
#[derive(Debug, Drop, Error)]
pub enum ConfigError {
    /// The endpoint isn't a URI with a scheme and a host.
    #[error("no endpoint: {0}")]
    Endpoint(String),
    /// The header of this name isn't allowed: it is the exporter's own, or the name or the value
    /// isn't one of a header, or the value has a blank at an end.
    #[error("header not allowed: {0}")]
    Header(String),
    /// The piece of this number, counted from 0, of a list of headers isn't `NAME=VALUE`.
    #[error("piece {0} of the list of headers isn't NAME=VALUE")]
    HeaderList(usize),
    /// Out of memory. Not in the Rust crate, which aborts.
    #[error("no memory")]
    Memory(AllocError),
}

impl From<AllocError> for ConfigError {
    ghost from_gives = { λ error converted. converted ≡ Memory error };

    fn from(error: AllocError) -> ConfigError {
        ConfigError::Memory(error)
    }
}

/// Returns the error that names the endpoint.
fn no_endpoint(alloc: Global, endpoint: &str) -> ConfigError
    ensures { spec.NamesEndpoint endpoint.now result }
{
    match String::from_str(alloc, endpoint) {
        Ok(endpoint) => ConfigError::Endpoint(endpoint),
        Err(error) => ConfigError::Memory(error),
    }
}

/// Returns the endpoint with the path added after it, without a slash between them that both have.
fn joined(alloc: Global, endpoint: &[u8], path: &[u8]) -> Result<Vec<u8>, AllocError>
    ensures { IfOk result (λ text. text.items ≡ spec.joined endpoint.now path.now) }
{
    let length = endpoint.len();
    let mut text = Vec::new(alloc);
    if length > 0 && endpoint[length - 1] == b'/' && !path.is_empty() {
        text.extend_from_slice(&endpoint[..length - 1])?;
    } else {
        text.extend_from_slice(endpoint)?;
    }
    text.extend_from_slice(path)?;
    Ok(text)
}

/// Returns `true` if the text has no query and no fragment.
fn is_plain(text: &str) -> bool
    ensures { IsTrue result ↔ spec.IsPlain text.now }
{
    text.as_bytes()
        .iter()
        .all(|byte| *byte != b'?' && *byte != b'#')
}

/// Returns the URI of the endpoint with the path added.
fn target(alloc: Global, endpoint: &str, path: &str) -> Result<Uri, ConfigError>
    ensures ok { IfOk result (spec.IsTarget endpoint.now path.now) }
    ensures err { IfErr result (spec.NamesEndpoint endpoint.now) }
    ensures refused { IfErr result
        (spec.IfEndpoint (spec.HasNoTarget endpoint.now path.now)) }
{
    if !path.is_empty() && !is_plain(endpoint) {
        return Err(no_endpoint(alloc, endpoint));
    }
    let text = joined(alloc, endpoint.as_bytes(), path.as_bytes())?;
    let uri = match Uri::from_bytes(alloc, text.as_slice()) {
        Ok(uri) => uri,
        Err(UriError::OutOfMemory) => return Err(ConfigError::Memory(AllocError)),
        Err(_) => return Err(no_endpoint(alloc, endpoint)),
    };
    if uri.scheme_str().is_none() || !uri.path().ends_with(path) {
        return Err(no_endpoint(alloc, endpoint));
    }
    Ok(uri)
}

/// Returns the path, or an empty one if the endpoint is of one signal.
fn path_unless(is_of_signal: bool, path: &str) -> &str
    ensures { result.now ≡ (if is_of_signal then [] else path.now) }
{
    if is_of_signal { "" } else { path }
}

/// Returns the headers with the content type of JSON.
fn with_json(mut headers: HeaderMap) -> Result<HeaderMap, ConfigError>
    ensures ok { IfOk result (λ new. new ≡ spec.with_json headers) }
    ensures err { IfErr result (λ error. error ≡ Memory alloc_error) }
{
    let json = HeaderValue::from_static("application/json");
    match headers.insert(http::header::CONTENT_TYPE, json) {
        Ok(_) => Ok(headers),
        Err(_) => Err(ConfigError::Memory(AllocError)),
    }
}

/// How a collector is reached: its endpoint, the headers of each request, and the longest body (the
/// Rust crate's `HttpExporterBuilder`).
///
/// ```
/// let config = OtlpHttpConfig::new(alloc)?
///     .with_endpoint(String::from_str(alloc, "https://collector.example:4318")?)
///     .with_header(alloc, "authorization", "Bearer x")?;
/// ```
///
/// Contracts see these parts.
#[derive(Drop)]
pub struct OtlpHttpConfig {
    endpoint: String,
    is_of_signal: bool,
    headers: HeaderMap,
    max_body: usize,
}

impl Model for OtlpHttpConfig {
    ghost use Rattle.std.specs.Prelude.{string_bytes};
    ghost use Rattle.otel_otlp.specs.HttpConfig.{Config};

    ghost Value = { Config };

    ghost view = { λ c. record {
      endpoint = string_bytes c.endpoint;
      is_of_signal = c.is_of_signal;
      headers = c.headers;
      max_body = c.max_body;
    } };
}

/// Returns the error that names the header.
fn not_allowed(alloc: Global, name: &str) -> ConfigError
    ensures { spec.NamesHeader name.now result }
{
    match String::from_str(alloc, name) {
        Ok(name) => ConfigError::Header(name),
        Err(error) => ConfigError::Memory(error),
    }
}

/// Returns `true` if the header is the exporter's own.
fn is_own(name: &HeaderName) -> bool
    ensures { IsTrue result ↔ spec.IsOwn name.now }
{
    name.eq_str("content-type") || name.eq_str("content-length") || name.eq_str("host")
}

/// Returns `true` if the value has no blank at an end.
fn is_trimmed(value: &str) -> bool
    ensures { result ≡ spec.is_trimmed value.now }
{
    cut_blanks(value).len() == value.len()
}

/// Returns the name and the value as those of a header.
#[tactic(auto, using(crate::proofs::HeaderLists::header_if))]
fn header(alloc: Global, name: &str, value: &str) -> Result<(HeaderName, HeaderValue), ConfigError>
    ensures ok { IfOk result (λ h. (h.0 ≡ lowercase name.now) × (h.1 ≡ plain_value value.now)) }
    ensures own { spec.IsOwn (lowercase name.now) → IsErr result }
    ensures name { ¬ (IsFieldName name.now) → IsErr result }
    ensures value { ¬ (IsFieldValue value.now) → IsErr result }
    ensures blank { spec.HasBlankEnd value.now → IsErr result }
    ensures err { IfErr result (spec.NamesHeader name.now) }
    ensures refused { IfErr result (spec.IfHeader (spec.IsRefusedHeader name.now value.now)) }
{
    let key = match HeaderName::from_bytes(alloc, name.as_bytes()) {
        Ok(key) => key,
        Err(HeaderNameError::Invalid) => return Err(not_allowed(alloc, name)),
        Err(HeaderNameError::OutOfMemory) => return Err(ConfigError::Memory(AllocError)),
    };
    if is_own(&key) || !is_trimmed(value) {
        return Err(not_allowed(alloc, name));
    }
    match HeaderValue::from_str(alloc, value) {
        Ok(value) => Ok((key, value)),
        Err(HeaderValueError::Invalid) => Err(not_allowed(alloc, name)),
        Err(HeaderValueError::OutOfMemory) => Err(ConfigError::Memory(AllocError)),
    }
}

/// Sets the header, in place of an earlier one of that name.
#[tactic(auto, using(crate::proofs::HeaderLists::header_if, crate::proofs::HeaderLists::header_or))]
fn put_header(
    alloc: Global,
    headers: &mut HeaderMap,
    name: &str,
    value: &str,
) -> Result<(), ConfigError>
    ensures ok { OnOk result (headers.new
        ≡ insert headers.old (lowercase name.now) (plain_value value.now)) }
    ensures own { spec.IsOwn (lowercase name.now) → IsErr result }
    ensures name { ¬ (IsFieldName name.now) → IsErr result }
    ensures value { ¬ (IsFieldValue value.now) → IsErr result }
    ensures blank { spec.HasBlankEnd value.now → IsErr result }
    ensures err { IfErr result (spec.NamesHeader name.now) }
    ensures refused { IfErr result
        (spec.IfHeader (spec.IsRefusedBy headers.old name.now value.now)) }
{
    let (key, field) = header(alloc, name, value)?;
    match headers.insert(key, field) {
        Ok(_) => Ok(()),
        Err(HeaderMapError::MaxSizeReached) => Err(not_allowed(alloc, name)),
        Err(HeaderMapError::OutOfMemory) => Err(ConfigError::Memory(AllocError)),
    }
}

impl OtlpHttpConfig {
    /// Returns the configuration for a collector on the same machine: `http://localhost:4318`, the
    /// exporter's `User-Agent`, and bodies of at most 4 MiB.
    ///
    /// # Errors
    ///
    /// `Memory` if out of memory.
    pub fn new(alloc: Global) -> Result<OtlpHttpConfig, ConfigError>
        ensures ok { IfOk result (λ config. config ≡ spec.local) }
        ensures err { IfErr result (λ error. error ≡ Memory alloc_error) }
    {
        let mut headers = HeaderMap::new(alloc);
        let agent = HeaderValue::from_static("OTel-OTLP-Exporter-Rattle/0.1.0");
        if headers.insert(http::header::USER_AGENT, agent).is_err() {
            return Err(ConfigError::Memory(AllocError));
        }
        Ok(OtlpHttpConfig {
            endpoint: String::from_str(alloc, "http://localhost:4318")?,
            is_of_signal: false,
            headers,
            max_body: 4_194_304,
        })
    }

    /// Sets the endpoint of all signals. A signal's path, such as `/v1/traces`, is added to it.
    pub fn with_endpoint(mut self, endpoint: String) -> OtlpHttpConfig
        ensures { result ≡ record self {
          endpoint = string_bytes endpoint;
          is_of_signal = false;
        } }
    {
        self.endpoint = endpoint;
        self.is_of_signal = false;
        self
    }

    /// Sets the endpoint of the one signal that is exported. Nothing is added to it.
    pub fn with_signal_endpoint(mut self, endpoint: String) -> OtlpHttpConfig
        ensures { result ≡ record self {
          endpoint = string_bytes endpoint;
          is_of_signal = true;
        } }
    {
        self.endpoint = endpoint;
        self.is_of_signal = true;
        self
    }

    /// Sets a header of each request, in place of an earlier one of that name.
    ///
    /// # Errors
    ///
    /// The configuration is dropped.
    ///
    /// - `Header` if the name is `Content-Type`, `Content-Length` or `Host`, in any case, or if the
    ///   name or the value isn't one of a header: neither may hold CR, LF or NUL, and the value has
    ///   no blank at an end. Also if there are too many headers.
    /// - `Memory` if out of memory.
    pub fn with_header(
        mut self,
        alloc: Global,
        name: &str,
        value: &str,
    ) -> Result<OtlpHttpConfig, ConfigError>
        ensures ok { IfOk result (λ config. config ≡ record self {
          headers = insert self.headers (lowercase name.now) (plain_value value.now);
        }) }
        ensures own { spec.IsOwn (lowercase name.now) → IsErr result }
        ensures name { ¬ (IsFieldName name.now) → IsErr result }
        ensures value { ¬ (IsFieldValue value.now) → IsErr result }
        ensures blank { spec.HasBlankEnd value.now → IsErr result }
        ensures err { IfErr result (spec.NamesHeader name.now) }
        ensures refused { IfErr result
            (spec.IfHeader (spec.IsRefusedBy self.headers name.now value.now)) }
    {
        put_header(alloc, &mut self.headers, name, value)?;
        Ok(self)
    }

    /// Sets the greatest length of a body in bytes. A longer batch is halved, and an item that is
    /// longer by itself is given up.
    pub fn with_max_body(mut self, max_body: usize) -> OtlpHttpConfig
        ensures { result ≡ record self { max_body = max_body } }
    {
        self.max_body = max_body;
        self
    }

    /// Returns the greatest length of a body in bytes.
    pub(crate) fn max_body(&self) -> usize
        ensures { result ≡ self.now.max_body }
    {
        self.max_body
    }

    /// Returns the head of each request for the signal whose path is given.
    ///
    /// # Errors
    ///
    /// `Endpoint` if the endpoint isn't a URI with a scheme and a host, or if the path is to be
    /// added after a query or a fragment. `Memory` if out of memory.
    pub(crate) fn into_head(self, alloc: Global, path: &str) -> Result<Parts, ConfigError>
        ensures ok { IfOk result (spec.IsHead self path.now) }
        ensures err { IfErr result (spec.NamesEndpoint self.endpoint) }
        ensures refused { IfErr result
            (spec.IfEndpoint (spec.HasNoTarget self.endpoint (spec.added self path.now))) }
    {
        let path = path_unless(self.is_of_signal, path);
        let uri = target(alloc, self.endpoint.as_str(), path)?;
        let headers = with_json(self.headers)?;
        Ok(Parts {
            method: Method::POST,
            uri,
            version: Version::HTTP_11,
            headers,
        })
    }
}
