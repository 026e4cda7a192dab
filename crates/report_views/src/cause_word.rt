//! Why a packet is refused, in one word.
ghost use Rattle.std.specs.Prelude.{◌≡◌};
ghost use Rattle.report_views.specs.Report.{cause_word};

use trace_types::Cause;

/// The word of a cause.
pub fn cause_word(cause: Cause) -> &'static str
    ensures { result.now ≡ cause_word cause }
{
    match cause {
        Cause::ShortHeader => "ShortHeader",
        Cause::BadMagic => "BadMagic",
        Cause::WrongUuid => "WrongUuid",
        Cause::UnknownStream => "UnknownStream",
        Cause::BadSize => "BadSize",
        Cause::ShortContent => "ShortContent",
        Cause::TooLong => "TooLong",
        Cause::NoVariant => "NoVariant",
        Cause::UnknownEvent => "UnknownEvent",
        Cause::NoBits => "NoBits",
        Cause::TimeBack => "TimeBack",
        Cause::TimeRange => "TimeRange",
    }
}
