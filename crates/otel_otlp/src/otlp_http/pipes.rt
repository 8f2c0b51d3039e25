//! An exporter over the named pipes of a folder.
ghost use Rattle.std.specs.Prelude.{◌≡◌, codes, IfOk, OnOk, IfErr, Err};
ghost use Rattle.otel_otlp.specs.FileClient.{initial};
ghost use Rattle.otel_otlp.specs.HttpExporter.{IsNew, IsAccounted};
ghost use Rattle.otel_otlp.specs.HttpTexts.{AreHeaders, OneIsRefused, of_env};
ghost use Rattle.otel_otlp.specs.Pipes.{NamesFault, IfConfig, IfKeys};
ghost use Rattle.otel_otlp.specs.HttpConfig.{HasNoTarget, IfEndpoint, IfHeader, added, local};
ghost use Rattle.otel_otlp.specs.declared.otlp_http.pipes.PipeError.TheVariants as Pipe;
ghost use Rattle.otel_otlp.specs.declared.otlp_http.config.ConfigError.TheVariants.{Memory};

use crate::otlp_http::config::{ConfigError, OtlpHttpConfig};
use crate::otlp_http::exporter::OtlpHttpSpanExporter;
use crate::otlp_http::file_client::FileClient;
use crate::otlp_http::key_calls::KeyCalls;
use otel_sdk_base::SystemClock;
use otel_sdk_base::otlp::EnvOtlp;
use std::alloc::{AllocError, Global};
use std::fs::Files;
use std::io;
use std::time::Clock;
use thiserror::Error;

/// Sends each batch of spans through the named pipes of a folder, by the runtime `R`.
pub type PipeExporter<R> = OtlpHttpSpanExporter<FileClient<R>, R, SystemClock<R>>;

/// The reason why an exporter over named pipes wasn't made.
#[derive(Debug, Drop, Error)]
pub enum PipeError {
    /// The endpoint or the list of headers was refused.
    #[error("{0}")]
    Config(ConfigError),
    /// The runtime gave no random keys.
    #[error("no random keys: {0}")]
    Keys(io::Error),
}

impl From<ConfigError> for PipeError {
    ghost from_gives = { λ error converted. converted ≡ Pipe.Config error };

    fn from(error: ConfigError) -> PipeError {
        PipeError::Config(error)
    }
}

impl From<io::Error> for PipeError {
    ghost from_gives = { λ error converted. converted ≡ Pipe.Keys error };

    fn from(error: io::Error) -> PipeError {
        PipeError::Keys(error)
    }
}

impl From<AllocError> for PipeError {
    ghost from_gives = { λ error converted. converted ≡ Pipe.Config (Memory error) };

    fn from(error: AllocError) -> PipeError {
        PipeError::Config(ConfigError::Memory(error))
    }
}

/// Returns an exporter of spans over a [`FileClient`] of the folder, with the endpoint and the
/// headers that the environment gives. The runtime opens the files, draws the factors of the waits,
/// and has the clock.
///
/// ```
/// let mut exporter = pipe_exporter(alloc, rt, folder.as_str(), &env.otlp_traces)?;
/// ```
///
/// No pipe is opened here: each request opens both, so that it also goes on after a connection was
/// cut. Until the crate's script joins the pipes to a collector, a request waits.
///
/// # Errors
///
/// - `Config` with the refusal of [`OtlpHttpConfig::from_env`] or of
///   [`OtlpHttpExporter::new`](crate::OtlpHttpExporter::new), or if out of memory. What `EnvConfig`
///   of `otel_sdk` reads isn't refused, whatever the variables say.
/// - `Keys` if the runtime gives no random keys.
pub fn pipe_exporter<R: Files + KeyCalls + Clock + Copy + Drop>(
    alloc: Global,
    rt: R,
    folder: &str,
    otlp: &EnvOtlp,
) -> Result<PipeExporter<R>, PipeError>
    ensures new { IfOk result
        (IsNew (initial folder.now) (of_env otlp.now) (codes "/v1/traces")) }
    ensures accounted { IfOk result IsAccounted }
    ensures headers { OnOk result (AreHeaders otlp.now.headers) }
    ensures err { IfErr result (NamesFault otlp.now) }
    ensures refused { IfErr result (IfConfig (IfEndpoint (HasNoTarget
        (of_env otlp.now).endpoint (added (of_env otlp.now) (codes "/v1/traces"))))) }
    ensures header { IfErr result
        (IfConfig (IfHeader (OneIsRefused local.headers otlp.now.headers))) }
    ensures keys { IfErr result (IfKeys (λ error. R.draws (Err error))) }
{
    let config = OtlpHttpConfig::from_env(alloc, otlp)?;
    let client = FileClient::new(alloc, rt.draw_keys()?, rt, folder)?;
    Ok(OtlpHttpSpanExporter::new(alloc, client, config, rt, SystemClock::new(rt))?)
}
