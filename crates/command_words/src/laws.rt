//! Laws of the command set. These functions do nothing: each is called for what it ensures.
ghost use Rattle.std.specs.Prelude.{◌≡◌, ◌↔◌, true, List, ℕ};
ghost use Rattle.command_words.specs.Parts.{same_name};
ghost use Rattle.command_words.specs.Words.{IsCommand};
ghost use Rattle.command_words.specs.declared.command.Command.{Command};
ghost use Rattle.command_words.specs.declared.option_name.OptionName.{OptionName};

/// Words are one command at most.
pub fn one_command()
    ensures { (words : List (List ℕ)) (c d : Command) → IsCommand words c → IsCommand words d → c ≡ d }
{}

/// The comparison of options tells all of them apart.
pub fn options_apart()
    ensures { (a b : OptionName) → same_name a b ≡ true ↔ a ≡ b }
{}
