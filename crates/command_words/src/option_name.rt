//! The options by name.
ghost use Rattle.std.specs.Prelude.{◌≡◌, ◌≢◌, IfSome, IfNone};
ghost use Rattle.command_words.specs.OptionNames.{name_text, takes_value};
ghost use Rattle.command_words.specs.declared.option_name.OptionName.{OptionName};

/// An option of a command line.
#[derive(Clone, Copy, PartialEq, Eq)]
pub enum OptionName {
    At,
    Attribute,
    Drift,
    From,
    Host,
    Hosts,
    List,
    Number,
    Once,
    Questions,
    Rounds,
    Tid,
    To,
    Workers,
}

impl OptionName {
    /// Whether the option has a value; else it is a flag.
    pub fn takes_value(self) -> bool
        ensures { result ≡ takes_value self }
    {
        !matches!(self, OptionName::Once)
    }

    /// The option's name, the minus signs before it left out.
    pub fn name(self) -> &'static str
        ensures { result.now ≡ name_text self }
    {
        match self {
            OptionName::At => "at",
            OptionName::Attribute => "attribute",
            OptionName::Drift => "drift",
            OptionName::From => "from",
            OptionName::Host => "host",
            OptionName::Hosts => "hosts",
            OptionName::List => "list",
            OptionName::Number => "number",
            OptionName::Once => "once",
            OptionName::Questions => "questions",
            OptionName::Rounds => "rounds",
            OptionName::Tid => "tid",
            OptionName::To => "to",
            OptionName::Workers => "workers",
        }
    }
}

/// The option with this name, the minus signs before it left out.
pub fn option_named(name: &[u8]) -> Option<OptionName>
    ensures found { IfSome result (λ n. name.now ≡ name_text n) }
    ensures none { IfNone result ((n : OptionName) → name.now ≢ name_text n) }
{
    match name {
        b"at" => Some(OptionName::At),
        b"attribute" => Some(OptionName::Attribute),
        b"drift" => Some(OptionName::Drift),
        b"from" => Some(OptionName::From),
        b"host" => Some(OptionName::Host),
        b"hosts" => Some(OptionName::Hosts),
        b"list" => Some(OptionName::List),
        b"number" => Some(OptionName::Number),
        b"once" => Some(OptionName::Once),
        b"questions" => Some(OptionName::Questions),
        b"rounds" => Some(OptionName::Rounds),
        b"tid" => Some(OptionName::Tid),
        b"to" => Some(OptionName::To),
        b"workers" => Some(OptionName::Workers),
        _ => None,
    }
}
