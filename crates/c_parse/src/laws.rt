//! That tokens have one tree or one first fault.
ghost use Rattle.std.specs.Prelude.{◌≡◌, ◌⊎◌, List, ℕ};
ghost use Rattle.c_lex.specs.declared.fault.SourceFault.{SourceFault};
ghost use Rattle.c_lex.specs.declared.token.Token.{Token};
ghost use Rattle.c_grammar.specs.Tree as t;
ghost use Rattle.c_parse.specs.Parsing.{IsFirstSyntaxFault, IsTreeOfTokens};

/// Tokens of a text have one tree or one first fault, always one of them and never both.
pub fn one_reading()
    ensures one_tree { (text : List ℕ) (tokens : List Token) (tree other : t.Tree)
        → IsTreeOfTokens text tokens tree → IsTreeOfTokens text tokens other → tree ≡ other }
    ensures one_fault { (text : List ℕ) (tokens : List Token) (fault other : SourceFault)
        → IsFirstSyntaxFault text tokens fault → IsFirstSyntaxFault text tokens other → fault ≡ other }
    ensures never_both { (text : List ℕ) (tokens : List Token) (tree : t.Tree) (fault : SourceFault)
        → IsTreeOfTokens text tokens tree → IsFirstSyntaxFault text tokens fault → ⊥ }
    ensures always_one { (text : List ℕ) (tokens : List Token) → ((tree : t.Tree) × IsTreeOfTokens text tokens tree)
        ⊎ ((fault : SourceFault) × IsFirstSyntaxFault text tokens fault) }
{}
