//! Theorems about reads, writes and runs of requests, as contracts of functions that do nothing. Other proofs cite them by `proofs/PublicLaws.antt`.

ghost use Rattle.reg_io.specs.Fill.{KeepsWhatWasTaken, SplitsAtDelimiter};
ghost use Rattle.reg_io.specs.Delimiter.{OneFirstDelimiter, FirstDelimiterOfAppend, FirstDelimiterInPrefix, NoDelimiterInPrefix, FirstDelimiterOfByte, NoDelimiterOfByte};
ghost use Rattle.reg_io.specs.Put.{PrefixOfFirst, PrefixOfSecond};
ghost use Rattle.reg_io.specs.RunsOfAnswers.{RunsGoOn, RunsStepOn};

/// Bytes have at most one first delimiter. It is also the first in longer bytes that begin with these, and in each prefix that contains it. Bytes of
/// which no prefix ends with the delimiter don't contain it.
pub fn one_first_delimiter()
    ensures one { OneFirstDelimiter }
    ensures longer { FirstDelimiterOfAppend }
    ensures shorter { FirstDelimiterInPrefix }
    ensures none { NoDelimiterInPrefix }
{}

/// If the delimiter is one byte, the first delimiter is the first such byte. Bytes without the delimiter don't contain the byte.
pub fn delimiters_of_one_byte()
    ensures first { FirstDelimiterOfByte }
    ensures none { NoDelimiterOfByte }
{}

/// After a read up to a delimiter, the buffer has exactly the bytes that it had before and those that were read.
pub fn kept_is_what_was_taken()
    ensures all { KeepsWhatWasTaken }
    ensures parts { SplitsAtDelimiter }
{}

/// If a writer stops before the end of `first`, or after `first` before the end of `second`, it has appended a proper prefix of both together.
pub fn prefixes_of_two_parts()
    ensures first { PrefixOfFirst }
    ensures second { PrefixOfSecond }
{}

/// An object that gives each request (`Asked`) an answer (`Given`), in turn. No type implements it: the law of runs needs only `answers`.
pub trait AnswersInTurn {
    type Asked;

    type Given;

    // One step: the object before, a request, its answer, and the object after.
    ghost answers: { Self → Self.Asked → Self.Given → Self → Type 0 };
}

/// A run (requests, each answered in turn) can be continued by a run that begins where it ended, and by one step.
pub fn runs_go_on<O: AnswersInTurn>()
    ensures runs { RunsGoOn O.answers }
    ensures steps { RunsStepOn O.answers }
{}
