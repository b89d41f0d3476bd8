//! The words by which causes are printed.

ghost use Rattle.std.specs.Prelude.{◌≡◌};
ghost use Rattle.hy_text.specs.Cause.{cause_word};

use hy_base::Cause;

/// The word by which a fault tells its cause.
pub fn cause_name(cause: Cause) -> &'static str
    ensures { result.now ≡ cause_word cause }
{
    match cause {
        Cause::NoHeader => "NoHeader",
        Cause::BadParams => "BadParams",
        Cause::BadWord => "BadWord",
        Cause::BadNumber => "BadNumber",
        Cause::BadHex => "BadHex",
        Cause::BadKey => "BadKey",
        Cause::LongValue => "LongValue",
        Cause::Extra => "Extra",
        Cause::TooManyOpen => "TooManyOpen",
        Cause::TooManyLines => "TooManyLines",
        Cause::NoLineEnd => "NoLineEnd",
        Cause::NoEnd => "NoEnd",
    }
}
