//! The rules of lines.

ghost use Rattle.std.specs.Prelude.{◌≡◌};
ghost use Rattle.std.specs.Option.{option_map};
ghost use Rattle.om_reasons.specs.Forms.{form_text};
ghost use Rattle.om_reasons.specs.Sentences.{rule_text};

use om_text::LineError;

/// Returns the rule that a faulty line breaks.
pub fn rule_of(error: LineError) -> &'static str
    ensures { result.now ≡ rule_text error }
{
    match error {
        LineError::UnknownLine => "no line begins with this word",
        LineError::WrongCount => "a line of this kind has another count of words",
        LineError::BadNumber => "a number is digits alone, and within what its line takes",
        LineError::BadWord => "a word is eight hexadecimal digits",
        LineError::BadName => "a name is 1 to 32 letters, digits and _",
        LineError::NameTaken => "a line above gave this name",
        LineError::NoSuchName => "no line above gave a name that stands here",
        LineError::OutOfPlace =>
            "programs and processes stand above all other lines, and procs, once, above all notes",
        LineError::TooMany =>
            "there are more of these than the 16 processes or 64 kills that may be",
        LineError::BadSize => "a size is 4 to 65536, a multiple of 4",
        LineError::ImageTooLong => "the words take more bytes than the size",
    }
}

/// Returns how a line is written that begins with a word, and for which command, where it is the first word of some line.
pub fn form_of(word: &str) -> Option<&'static str>
    ensures { option_map (λ form. form.now) result ≡ form_text word.now }
{
    match word {
        "program" => Some("program NAME SIZE WORD .., each WORD of eight hexadecimal digits"),
        "program-m" => Some("program-m NAME SIZE WORD .., each WORD of eight hexadecimal digits"),
        "proc" => Some("proc NAME PROGRAM"),
        "kill" => Some("kill NAME INTERVAL, for run"),
        "flush" => Some("flush K, of 1 or more, for run; flush P or flush P K for sim"),
        "checkpoint" => Some("checkpoint K, of 1 or more, for run; checkpoint P for sim"),
        "spell" => Some("spell P, for sim"),
        "fuel" => Some("fuel K, of 1 or more, for run"),
        "run" => Some("run P K, for sim"),
        "give" => Some("give P F, for sim"),
        "fail" => Some("fail P, for sim"),
        "join" => Some("join P, for sim"),
        "resume" => Some("resume P, for sim"),
        "resend" => Some("resend P, for sim"),
        "trim" => Some("trim P, for sim"),
        "prune" => Some("prune, for sim"),
        "restart" => Some("restart, for sim"),
        "procs" => Some("procs N, of 1 to 16, for frontier"),
        "log" => Some("log P X V0 .., as many V as there are processes, for frontier"),
        "ckpt" => Some("ckpt P X V0 .., as many V as there are processes, for frontier"),
        _ => None,
    }
}
