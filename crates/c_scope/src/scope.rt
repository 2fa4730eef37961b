//! Scopes: what names stand for at a place of a program.
ghost use Rattle.std.specs.Prelude.{◌≡◌, IfOk, OnOk, map, option_map, slice_get};
ghost use Rattle.std.specs.Str.{bytes_eq};
ghost use Rattle.c_grammar.specs.StmtView.{head_view};
ghost use Rattle.c_scope.specs.Least.{least_fault_from};
ghost use Rattle.c_scope.specs.Literals.{literal_at};
ghost use Rattle.c_scope.specs.Signatures.{function_entries, signature_of};
ghost use Rattle.c_scope.specs.Variables.{variable};
ghost use Rattle.c_scope.specs.Scopes.{closed, token_bytes, declare, declared_meaning, found, meaning, meaning_of, name_faults, opened, twice_faults};

use crate::declarations::Declarations;
use crate::fault::{TypingFault, note_at, note_unless};
use crate::meaning::{Entity, Meaning};
use c_grammar::statement::Head;
use c_grammar::terminal::Span;
use c_lex::{Why, literal_value};
use c_names::predefined::meaning_of;
use std::alloc::{AllocError, Global};
use std::marker::Model;

/// The bytes of a token.
pub fn token_bytes(text: &[u8], span: Span) -> &[u8]
    ensures { result.now ≡ token_bytes text.now span }
{
    let from = text.len().min(span.start as usize);
    let rest = &text[from..];
    let len = rest.len().min(span.len as usize);
    &rest[..len]
}

pub fn is_same(name: &[u8], other: &[u8]) -> bool
    ensures { result ≡ bytes_eq name.now other.now }
{
    name == other
}

/// The number of a token; 0 for what is no literal.
pub fn number_at(text: &[u8], span: Span) -> u32
    ensures { result ≡ literal_at text.now span }
{
    literal_value(token_bytes(text, span)).unwrap_or(0)
}

/// The text, the heads of its functions, and what is declared. Contracts see an `Env`.
#[derive(Drop)]
pub struct Scope<'a> {
    text: &'a [u8],
    heads: Vec<&'a Head>,
    declared: Declarations<'a>,
}

impl<'a> Model for Scope<'a> {
    ghost use Rattle.std.specs.Prelude.{map};
    ghost use Rattle.c_grammar.specs.StmtView.{head_view};
    ghost use Rattle.c_scope.specs.Scopes.{Env};
    ghost use Rattle.c_scope.specs.Signatures.{signature_of};

    ghost Value = { Env };

    ghost view = { λ s. record { text = s.text.now; functions = map (λ head. signature_of (head_view head.now)) s.heads.items; entries = s.declared } };
}

impl<'a> Scope<'a> {
    /// The functions are declared, from the last one on, so that of two of one name the first is found.
    #[tactic(auto, using(crate::proofs::Entries::function_more))]
    pub fn of_functions(
        alloc: Global,
        text: &'a [u8],
        heads: Vec<&'a Head>,
    ) -> Result<Self, AllocError>
        ensures { IfOk result (λ scope. scope ≡ record { text = text.now; functions = map (λ head. signature_of (head_view head.now)) heads.entry.items; entries = function_entries text.now 0 (map (λ head. head_view head.now) heads.entry.items) }) }
    {
        let mut declared = Declarations::new(alloc);
        let mut number = heads.len();
        while number > 0 {
            number -= 1;
            declared.declare(
                token_bytes(text, heads[number].name),
                Entity::Function(number),
            )?;
        }
        Ok(Scope {
            text,
            heads,
            declared,
        })
    }

    pub fn text(&self) -> &'a [u8]
        ensures { result.now ≡ self.now.text }
    {
        self.text
    }

    /// The head of a function by its number.
    pub fn head(&self, number: usize) -> Option<&'a Head>
        ensures { option_map (λ head. signature_of (head_view head.now)) result ≡ slice_get self.now.functions number }
    {
        self.heads.get(number).copied()
    }

    pub fn declare(&mut self, name: Span, entity: Entity) -> Result<(), AllocError>
        ensures { OnOk result (self.new ≡ declare self.old name entity) }
    {
        self.declared.declare(token_bytes(self.text, name), entity)
    }

    /// Begins a block.
    pub fn open(&mut self) -> Result<(), AllocError>
        ensures { OnOk result (self.new ≡ opened self.old) }
    {
        self.declared.open()
    }

    /// Ends the innermost block.
    pub fn close(&mut self)
        ensures { self.new ≡ record self.old { entries = closed self.old.entries } }
    {
        self.declared.close();
    }

    #[tactic(auto, using(crate::proofs::Hiding::found_is))]
    fn find(&self, name: &[u8]) -> Option<Entity>
        ensures { result ≡ found self.now.entries name.now }
    {
        match self.declared.get(name) {
            Some(declaration) => Some(declaration.entity),
            None => None,
        }
    }

    /// What a name means.
    pub fn meaning(&self, span: Span) -> Meaning
        ensures { result ≡ meaning self.now span }
    {
        let name = token_bytes(self.text, span);
        match meaning_of(name) {
            Some(known) => Meaning::Known(known),
            None => declared_meaning(name, self.find(name)),
        }
    }

    /// How many variables of the function stand before this one.
    #[tactic(auto, using(crate::proofs::Hiding::number_is))]
    pub fn variable(&self, span: Span) -> usize
        ensures { result ≡ variable self.now span }
    {
        match self.declared.get(token_bytes(self.text, span)) {
            Some(declaration) => declaration.variables,
            None => 0,
        }
    }

    /// A name that may not be declared here.
    pub fn want_free(&self, best: &mut Option<TypingFault>, span: Span)
        ensures { best.new ≡ least_fault_from best.old (twice_faults self.now span) }
    {
        let name = token_bytes(self.text, span);
        let taken = meaning_of(name).is_some() || self.declared.is_in_block(name);
        note_unless(best, !taken, span, Why::Twice);
    }
}

/// A name that is not predefined, and its declaration.
fn declared_meaning(name: &[u8], found: Option<Entity>) -> Meaning
    ensures { result ≡ declared_meaning name.now found }
{
    match found {
        Some(entity) => Meaning::Declared(entity),
        None => {
            if name.starts_with(b"MPI_") {
                Meaning::LeftOut
            } else {
                Meaning::Unknown
            }
        }
    }
}

/// A name without a meaning.
pub fn want_meaning(best: &mut Option<TypingFault>, meaning: Meaning, span: Span)
    ensures { best.new ≡ least_fault_from best.old (name_faults meaning span) }
{
    match meaning {
        Meaning::Unknown => note_at(best, span, Why::Unknown),
        Meaning::LeftOut => note_at(best, span, Why::LeftOut),
        _ => {}
    }
}
