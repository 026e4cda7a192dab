//! A place among tokens.
ghost use Rattle.std.specs.Prelude.{◌≡◌, [], length, drop, Some, None, MatchOption, option_map, slice_get};
ghost use Rattle.tsdl_parser.specs.Symbols.{head};
ghost use Rattle.tsdl_parser.specs.Parsers as spec;
ghost use Rattle.tsdl_parser.specs.Reading.{is_align, sees_align};
ghost use Rattle.tsdl_parser.specs.Parsers.{Reads};

use crate::fault::Fault;
use crate::symbol::{Symbol, is_same, symbol_of};
use std::alloc::Global;
use std::marker::Model;
use trace_types::{Text, is_text};
use tsdl_lex::{Token, TokenKind};

/// The tokens that are left. Contracts see their list.
#[derive(Drop)]
pub struct Cursor<'a> {
    rest: &'a [Token],
}

impl<'a> Model for Cursor<'a> {
    ghost use Rattle.std.specs.Prelude.{List};
    ghost use Rattle.std.specs.Coded.{coded_list};
    ghost use Rattle.tsdl_lex.specs.declared.token.Token.{Token as SpecToken};
    ghost use Rattle.tsdl_lex.specs.contracts.token.Token as token;

    ghost Value = { List SpecToken };

    ghost coded = { coded_list token.the_row.coded };

    ghost view = { λ c. c.rest.now };
}

impl<'a> Cursor<'a> {
    pub fn new(tokens: &'a [Token]) -> Cursor<'a>
        ensures { result ≡ tokens.now }
    {
        Cursor { rest: tokens }
    }

    /// How many tokens are left.
    pub fn left(&self) -> usize
        ensures { result ≡ length self.now }
    {
        self.rest.len()
    }

    /// The next symbol.
    pub fn peek(&self) -> Symbol
        ensures { result ≡ head self.now }
    {
        match self.rest.first() {
            Some(token) => symbol_of(&token.kind),
            None => Symbol::End,
        }
    }

    // What the next token is.
    fn kind(&self) -> Option<&'a TokenKind>
        ensures { MatchOption result (self.now ≡ []) (λ kind. option_map (λ t. t.kind) (slice_get self.now 0) ≡ Some kind.now) }
    {
        Some(&self.rest.first()?.kind)
    }

    /// Whether this symbol comes next.
    #[tactic(auto, unfolding(crate::specs::Parsers::sees))]
    pub fn sees(&self, symbol: Symbol) -> bool
        ensures { result ≡ spec.sees symbol self.now }
    {
        is_same(self.peek(), symbol)
    }

    /// Passes the next token, where there is one.
    pub fn skip(&mut self)
        ensures { self.new ≡ drop 1 self.old }
    {
        self.rest = &self.rest[self.rest.len().min(1)..];
    }

    /// Passes this symbol, if it comes next.
    #[tactic(auto, unfolding(crate::specs::Parsers::after))]
    pub fn eat(&mut self, symbol: Symbol) -> bool
        ensures found { result ≡ spec.sees symbol self.old }
        ensures after { self.new ≡ spec.after symbol self.old }
    {
        let found = self.sees(symbol);
        if found {
            self.skip();
        }
        found
    }

    /// Passes this symbol, which has to come next.
    #[tactic(auto, unfolding(crate::specs::Parsers::expect))]
    pub fn expect(&mut self, symbol: Symbol) -> Result<(), Fault>
        ensures { Reads (spec.expect symbol self.old) result self.new }
    {
        if self.sees(symbol) {
            self.skip();
            Ok(())
        } else {
            Err(Fault::Refused)
        }
    }

    /// A word, be it a keyword or a name.
    #[tactic(auto, unfolding(crate::specs::Parsers::word), using(crate::proofs::Firsts::with_value, crate::proofs::Firsts::at_end))]
    pub fn word(&mut self, alloc: Global) -> Result<Text, Fault>
        ensures { Reads (spec.word self.old) result self.new }
    {
        let kind = self.kind().ok_or(Fault::Refused)?;
        let word = word_of(kind).ok_or(Fault::Refused)?;
        let word = Text::from_bytes(alloc, word.as_bytes())?;
        self.skip();
        Ok(word)
    }

    #[tactic(auto, unfolding(crate::specs::Parsers::number), using(crate::proofs::Firsts::with_value, crate::proofs::Firsts::at_end))]
    pub fn number(&mut self) -> Result<u64, Fault>
        ensures { Reads (spec.number self.old) result self.new }
    {
        let kind = self.kind().ok_or(Fault::Refused)?;
        let number = number_of(kind).ok_or(Fault::Refused)?;
        self.skip();
        Ok(number)
    }

    #[tactic(auto, unfolding(crate::specs::Parsers::string), using(crate::proofs::Firsts::with_value, crate::proofs::Firsts::at_end))]
    pub fn string(&mut self, alloc: Global) -> Result<Text, Fault>
        ensures { Reads (spec.string self.old) result self.new }
    {
        let kind = self.kind().ok_or(Fault::Refused)?;
        let text = string_of(kind).ok_or(Fault::Refused)?;
        let text = Text::from_bytes(alloc, text.as_bytes())?;
        self.skip();
        Ok(text)
    }

    /// A word that is no keyword.
    #[tactic(auto, unfolding(crate::specs::Parsers::name))]
    pub fn name(&mut self, alloc: Global) -> Result<Text, Fault>
        ensures { Reads (spec.name self.old) result self.new }
    {
        if self.sees(Symbol::Name) {
            self.word(alloc)
        } else {
            Err(Fault::Refused)
        }
    }

    /// The name that may come next.
    pub fn name_if_any(&mut self, alloc: Global) -> Result<Option<Text>, Fault>
        ensures { Reads (spec.if_seen Symbol.Name spec.word self.old) result self.new }
    {
        if self.sees(Symbol::Name) {
            Ok(Some(self.word(alloc)?))
        } else {
            Ok(None)
        }
    }

    /// Whether `align` and a parenthesis come next.
    pub fn sees_align(&self) -> bool
        ensures { result ≡ sees_align self.now }
    {
        match self.rest.first() {
            Some(token) => is_align(&token.kind)
                && Cursor::new(&self.rest[1..]).sees(Symbol::OpenParen),
            None => false,
        }
    }
}

fn is_align(kind: &TokenKind) -> bool
    ensures { result ≡ is_align (spec.word_of kind.now) }
{
    match word_of(kind) {
        Some(word) => is_text(word.as_bytes(), b"align"),
        None => false,
    }
}

fn word_of(kind: &TokenKind) -> Option<&Text>
    ensures { option_map (λ w. w.now) result ≡ spec.word_of kind.now }
{
    match kind {
        TokenKind::Word(word) => Some(word),
        _ => None,
    }
}

fn number_of(kind: &TokenKind) -> Option<u64>
    ensures { result ≡ spec.number_of kind.now }
{
    match kind {
        TokenKind::Number(number) => Some(*number),
        _ => None,
    }
}

fn string_of(kind: &TokenKind) -> Option<&Text>
    ensures { option_map (λ text. text.now) result ≡ spec.string_of kind.now }
{
    match kind {
        TokenKind::Str(text) => Some(text),
        _ => None,
    }
}
