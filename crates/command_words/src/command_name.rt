//! The commands by name.
ghost use Rattle.std.specs.Prelude.{◌≡◌, ◌≢◌, IfSome, IfNone};
ghost use Rattle.command_words.specs.CommandNames.{name_word};
ghost use Rattle.command_words.specs.declared.command_name.CommandName.{CommandName};

/// The name of a command.
#[derive(Clone, Copy)]
pub enum CommandName {
    Check,
    Report,
    Events,
    State,
    Ask,
    Path,
    Make,
    Range,
    Disks,
}

/// The command with this word.
pub fn command_named(word: &[u8]) -> Option<CommandName>
    ensures found { IfSome result (λ n. word.now ≡ name_word n) }
    ensures none { IfNone result ((n : CommandName) → word.now ≢ name_word n) }
{
    match word {
        b"check" => Some(CommandName::Check),
        b"report" => Some(CommandName::Report),
        b"events" => Some(CommandName::Events),
        b"state" => Some(CommandName::State),
        b"ask" => Some(CommandName::Ask),
        b"path" => Some(CommandName::Path),
        b"make" => Some(CommandName::Make),
        b"range" => Some(CommandName::Range),
        b"disks" => Some(CommandName::Disks),
        _ => None,
    }
}
