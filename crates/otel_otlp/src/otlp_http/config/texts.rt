//! Reads how a collector is reached from the texts of environment variables.
ghost use Rattle.std.specs.Prelude.{◌≡◌, None, IfOk, OnOk, IfErr, IsErr, option_map};
ghost use Rattle.otel_base.specs.View.{attribute_of, value_of};
ghost use Rattle.otel_sdk_base.specs.ResourceTexts.{fault};
ghost use Rattle.otel_otlp.specs.HttpConfig.{IfHeader, local};
ghost use Rattle.otel_otlp.specs.HttpTexts as spec;

use super::{ConfigError, OtlpHttpConfig, put_header};
use http::HeaderMap;
use opentelemetry::{KeyValue, Value};
use otel_sdk_base::otlp::{EnvEndpoint, EnvOtlp};
use otel_sdk_base::resource::Resource;
use std::alloc::{AllocError, Global};

/// Returns the text of the value.
fn text_of(value: &Value) -> &str
    ensures { result.now ≡ spec.text_of (value_of value.now) }
{
    match value {
        Value::String(text) => text.as_str(),
        _ => "",
    }
}

/// Returns an error that numbers the first piece of the list that isn't `NAME=VALUE`.
fn check_list(alloc: Global, list: &str) -> Result<(), ConfigError>
    ensures ok { OnOk result (fault list.now ≡ None) }
    ensures err { IfErr result (spec.NamesPiece list.now) }
    ensures form { IfErr result (IfHeader ⊥) }
{
    let (_, error) = Resource::from_texts(alloc, list, "")?;
    match error {
        Some(error) => Err(ConfigError::HeaderList(error.piece)),
        None => Ok(()),
    }
}

/// Returns the first attribute of the resource, if there is one.
fn first_of(resource: &Resource) -> Option<&KeyValue>
    ensures { option_map (λ a. attribute_of a.now) result ≡ spec.first resource.now.attributes }
{
    resource.attributes().next()
}

/// Sets the header of the attribute's name and value, if there is one.
fn put_read(
    alloc: Global,
    headers: &mut HeaderMap,
    read: Option<&KeyValue>,
) -> Result<(), ConfigError>
    ensures ok { OnOk result (headers.new
        ≡ spec.with_read headers.old (option_map (λ a. attribute_of a.now) read.entry)) }
    ensures refused { spec.IsReadRefused (option_map (λ a. attribute_of a.now) read.entry)
        → IsErr result }
    ensures err { IfErr result
        (spec.NamesRead (option_map (λ a. attribute_of a.now) read.entry)) }
    ensures why { IfErr result (IfHeader (spec.IsReadRefusedBy headers.old
        (option_map (λ a. attribute_of a.now) read.entry))) }
{
    match read {
        Some(read) => put_header(alloc, headers, read.key.as_str(), text_of(&read.value)),
        None => Ok(()),
    }
}

/// Sets the header of the piece, unless that is blank.
fn put_piece(alloc: Global, headers: &mut HeaderMap, piece: &str) -> Result<(), ConfigError>
    ensures ok { OnOk result (headers.new ≡ spec.with_piece headers.old piece.now) }
    ensures refused { spec.IsRefused piece.now → IsErr result }
    ensures err { IfErr result (spec.NamesRead (spec.read piece.now)) }
    ensures why { IfErr result
        (IfHeader (spec.IsReadRefusedBy headers.old (spec.read piece.now))) }
{
    let found = Resource::from_texts(alloc, piece, "")?;
    put_read(alloc, headers, first_of(&found.0))
}

/// Sets the headers of the list in turn.
fn put_list(alloc: Global, headers: &mut HeaderMap, list: &str) -> Result<(), ConfigError>
    ensures ok { OnOk result (headers.new ≡ spec.with_list headers.old list.now) }
    ensures headers { OnOk result (spec.AreHeaders list.now) }
    ensures err { IfErr result (spec.NamesPiece list.now) }
    ensures why { IfErr result (IfHeader (spec.OneIsRefused headers.old list.now)) }
{
    check_list(alloc, list)?;
    for piece in list.split(',') {
        put_piece(alloc, headers, piece)?;
    }
    Ok(())
}

impl OtlpHttpConfig {
    /// Reads the configuration from the texts of environment variables, an empty one for a variable
    /// that isn't set: the endpoint of all signals, the endpoint of the signal that is exported,
    /// which wins, and the list of headers ([`OtlpHttpConfig::with_header_list`]).
    ///
    /// # Errors
    ///
    /// Those of [`OtlpHttpConfig::with_header_list`].
    pub fn from_texts(
        alloc: Global,
        endpoint: &str,
        signal_endpoint: &str,
        headers: &str,
    ) -> Result<OtlpHttpConfig, ConfigError>
        ensures ok { IfOk result (λ config. config
            ≡ spec.of_texts endpoint.now signal_endpoint.now headers.now) }
        ensures headers { OnOk result (spec.AreHeaders headers.now) }
        ensures err { IfErr result (spec.NamesPiece headers.now) }
        ensures why { IfErr result
            (IfHeader (spec.OneIsRefused local.headers headers.now)) }
    {
        let config = OtlpHttpConfig::new(alloc)?;
        let config = config.with_endpoints(alloc, endpoint, signal_endpoint)?;
        config.with_header_list(alloc, headers)
    }

    /// Reads the configuration that the environment gives for a signal, as `EnvConfig::from_vars`
    /// of `otel_sdk` reads it. That warns of faults, and leaves them out, so that none is left here.
    ///
    /// ```
    /// let config = OtlpHttpConfig::from_env(alloc, &env.otlp_traces)?;
    /// ```
    ///
    /// # Errors
    ///
    /// Those of [`OtlpHttpConfig::with_header_list`].
    pub fn from_env(alloc: Global, otlp: &EnvOtlp) -> Result<OtlpHttpConfig, ConfigError>
        ensures ok { IfOk result (λ config. config ≡ spec.of_env otlp.now) }
        ensures headers { OnOk result (spec.AreHeaders otlp.now.headers) }
        ensures err { IfErr result (spec.NamesPiece otlp.now.headers) }
        ensures why { IfErr result
            (IfHeader (spec.OneIsRefused local.headers otlp.now.headers)) }
    {
        let headers = otlp.headers.as_str();
        match &otlp.endpoint {
            EnvEndpoint::Base(text) => {
                OtlpHttpConfig::from_texts(alloc, text.as_str(), "", headers)
            }
            EnvEndpoint::Exact(text) => {
                OtlpHttpConfig::from_texts(alloc, "", text.as_str(), headers)
            }
        }
    }

    // Sets the endpoint of the signal, or of all signals if the first text is empty, if any.
    fn with_endpoints(
        self,
        alloc: Global,
        endpoint: &str,
        signal_endpoint: &str,
    ) -> Result<OtlpHttpConfig, AllocError>
        ensures { IfOk result (λ config. config
            ≡ spec.with_endpoints endpoint.now signal_endpoint.now self) }
    {
        if !signal_endpoint.is_empty() {
            return Ok(self.with_signal_endpoint(String::from_str(alloc, signal_endpoint)?));
        }
        if !endpoint.is_empty() {
            return Ok(self.with_endpoint(String::from_str(alloc, endpoint)?));
        }
        Ok(self)
    }

    /// Sets each header of the list `NAME=VALUE,..`, in place of an earlier one of that name. The
    /// list is read as the attributes of [`Resource::from_texts`]: escapes such as `%2C` denote
    /// bytes, and blanks around a name or a value, and blank pieces, don't count (OpenTelemetry
    /// specification, "Specifying headers via environment variables").
    ///
    /// # Errors
    ///
    /// The configuration is dropped.
    ///
    /// - `HeaderList` if a piece isn't `NAME=VALUE`, or has a faulty escape.
    /// - `Header` if a header isn't allowed, as for [`OtlpHttpConfig::with_header`].
    /// - `Memory` if out of memory.
    pub fn with_header_list(
        mut self,
        alloc: Global,
        list: &str,
    ) -> Result<OtlpHttpConfig, ConfigError>
        ensures ok { IfOk result (λ config. config ≡ record self {
          headers = spec.with_list self.headers list.now;
        }) }
        ensures headers { OnOk result (spec.AreHeaders list.now) }
        ensures err { IfErr result (spec.NamesPiece list.now) }
        ensures why { IfErr result (IfHeader (spec.OneIsRefused self.headers list.now)) }
    {
        put_list(alloc, &mut self.headers, list)?;
        Ok(self)
    }
}
