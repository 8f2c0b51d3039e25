//! The error of a span that was not entered, as an error of the SDK.
ghost use Rattle.std.specs.Prelude.{◌≡◌};
ghost use Rattle.otel_sdk_base.specs.NotEntered.{of_not_entered};

use crate::error::OTelSdkError;
use opentelemetry::trace::NotEntered;

impl From<NotEntered> for OTelSdkError {
    ghost from_gives = { λ error converted. converted ≡ of_not_entered error };

    fn from(error: NotEntered) -> OTelSdkError {
        match error {
            NotEntered::NumbersUsedUp => OTelSdkError::NumbersUsedUp,
            NotEntered::PositionsUsedUp => OTelSdkError::PositionsUsedUp,
            NotEntered::Memory(error) => OTelSdkError::Memory(error),
        }
    }
}
