//! A cursor over the tokens of a text, with one token in hand.

ghost use Rattle.std.specs.Prelude.{◌≡◌, ◌<◌, ◌≤◌, ◌^◌, length, OnOk, IfOk};
ghost use Rattle.dx_grammar.specs.Stream as stream;
ghost use Rattle.dx_expr_grammar.specs.Tokens.{tokens_of};
ghost use Rattle.dx_expr_grammar.specs.Words as words;
ghost use Rattle.dx_expr_grammar.specs.Reading as spec;
ghost use Rattle.dx_expr_grammar.specs.Reading.{Reads};
ghost use Rattle.dx_expr_parser.specs.Cursor.{behind};

use crate::classes::{one_operand, operator_at, prefix, same_sign, two_operands};
use crate::lexer::{Next, scan};
use dx_expr_grammar::{Binary, ExprFail, Level, Sign, TokenKind, Unary};
use std::marker::Model;

#[derive(Drop)]
pub struct Cursor<'a> {
    next: Next,
    /// The offset behind it, and what is left of the text there.
    at: u64,
    rest: &'a [u8],
}

impl<'a> Model for Cursor<'a> {
    ghost use Rattle.dx_expr_grammar.specs.Tokens.{Tokens};

    ghost Value = { Tokens };

    ghost use Rattle.dx_expr_parser.specs.Shown.{shown_by, HasRoom};

    ghost view = { shown_by };

    ghost invariant = { HasRoom };
}

impl<'a> Cursor<'a> {
    /// At the first token of a text.
    pub fn new(text: &'a [u8]) -> Cursor<'a>
        ensures { result ≡ tokens_of text.now }
    {
        let (next, at, rest) = scan(0, text);
        Cursor { next, at, rest }
    }

    /// Goes on to the next token.
    fn advance(&mut self)
        ensures { self.new ≡ behind self.old }
    {
        if let Next::Token(_) = self.next {
            let (next, at, rest) = scan(self.at, self.rest);
            self.next = next;
            self.at = at;
            self.rest = rest;
        }
    }

    #[tactic(auto, unfolding(dx_expr_grammar::specs::Reading::sees))]
    pub fn sees(&self, sign: Sign) -> bool
        ensures { result ≡ spec.sees sign self.now }
    {
        match self.next {
            Next::Token(token) => match token.kind {
                TokenKind::Sign(s) => same_sign(s, sign),
                TokenKind::Digits(_) => false,
            },
            Next::End { .. } => false,
        }
    }

    #[tactic(auto, unfolding(dx_expr_grammar::specs::Reading::sign))]
    pub fn sign(&mut self, sign: Sign) -> Result<u64, ExprFail>
        ensures reads { Reads (spec.sign sign self.old) result self.new }
        ensures onward { OnOk result (length self.new.tokens < length self.old.tokens) }
    {
        match self.next {
            Next::Token(token) => match token.kind {
                TokenKind::Sign(s) if same_sign(s, sign) => {
                    self.advance();
                    Ok(token.at)
                }
                _ => Err(ExprFail::Refused(token.at)),
            },
            Next::End { at, .. } => Err(ExprFail::Refused(at)),
        }
    }

    /// Digits of at most this value.
    #[tactic(auto, unfolding(dx_expr_grammar::specs::Reading::digits))]
    pub fn digits(&mut self, most: u32) -> Result<u32, ExprFail>
        ensures reads { Reads (spec.digits most self.old) result self.new }
        ensures onward { OnOk result (length self.new.tokens < length self.old.tokens) }
        ensures most { IfOk result (λ n. n ≤ most) }
    {
        match self.next {
            Next::Token(token) => match token.kind {
                TokenKind::Digits(n) if n <= most => {
                    self.advance();
                    Ok(n)
                }
                _ => Err(ExprFail::Refused(token.at)),
            },
            Next::End { at, .. } => Err(ExprFail::Refused(at)),
        }
    }

    #[tactic(auto, unfolding(dx_expr_grammar::specs::Reading::sees_digits))]
    pub fn sees_digits(&self) -> bool
        ensures { result ≡ spec.sees_digits self.now }
    {
        match self.next {
            Next::Token(token) => match token.kind {
                TokenKind::Sign(_) => false,
                TokenKind::Digits(_) => true,
            },
            Next::End { .. } => false,
        }
    }

    /// Whether an operator of this level comes next.
    #[tactic(auto, unfolding(dx_expr_grammar::specs::Reading::sees_class))]
    pub fn sees_operator(&self, level: Level) -> bool
        ensures { result ≡ spec.sees_class (words.operator_at level) self.now }
    {
        match self.next {
            Next::Token(token) => match token.kind {
                TokenKind::Sign(s) => operator_at(level, s).is_some(),
                TokenKind::Digits(_) => false,
            },
            Next::End { .. } => false,
        }
    }

    #[tactic(auto, unfolding(dx_expr_grammar::specs::Reading::class))]
    pub fn operator(&mut self, level: Level) -> Result<Binary, ExprFail>
        ensures reads { Reads (spec.class (words.operator_at level) self.old) result self.new }
        ensures onward { OnOk result (length self.new.tokens < length self.old.tokens) }
    {
        match self.next {
            Next::Token(token) => match token.kind {
                TokenKind::Sign(s) => match operator_at(level, s) {
                    Some(o) => {
                        self.advance();
                        Ok(o)
                    }
                    None => Err(ExprFail::Refused(token.at)),
                },
                TokenKind::Digits(_) => Err(ExprFail::Refused(token.at)),
            },
            Next::End { at, .. } => Err(ExprFail::Refused(at)),
        }
    }

    /// Whether an operator before an operand comes next.
    #[tactic(auto, unfolding(dx_expr_grammar::specs::Reading::sees_class))]
    pub fn sees_prefix(&self) -> bool
        ensures { result ≡ spec.sees_class words.prefix self.now }
    {
        match self.next {
            Next::Token(token) => match token.kind {
                TokenKind::Sign(s) => prefix(s).is_some(),
                TokenKind::Digits(_) => false,
            },
            Next::End { .. } => false,
        }
    }

    #[tactic(auto, unfolding(dx_expr_grammar::specs::Reading::class))]
    pub fn prefix(&mut self) -> Result<Unary, ExprFail>
        ensures reads { Reads (spec.class words.prefix self.old) result self.new }
        ensures onward { OnOk result (length self.new.tokens < length self.old.tokens) }
    {
        match self.next {
            Next::Token(token) => match token.kind {
                TokenKind::Sign(s) => match prefix(s) {
                    Some(o) => {
                        self.advance();
                        Ok(o)
                    }
                    None => Err(ExprFail::Refused(token.at)),
                },
                TokenKind::Digits(_) => Err(ExprFail::Refused(token.at)),
            },
            Next::End { at, .. } => Err(ExprFail::Refused(at)),
        }
    }

    /// Whether a function of one operand comes next.
    #[tactic(auto, unfolding(dx_expr_grammar::specs::Reading::sees_class))]
    pub fn sees_one_operand(&self) -> bool
        ensures { result ≡ spec.sees_class words.one_operand self.now }
    {
        match self.next {
            Next::Token(token) => match token.kind {
                TokenKind::Sign(s) => one_operand(s).is_some(),
                TokenKind::Digits(_) => false,
            },
            Next::End { .. } => false,
        }
    }

    #[tactic(auto, unfolding(dx_expr_grammar::specs::Reading::class))]
    pub fn one_operand(&mut self) -> Result<Unary, ExprFail>
        ensures reads { Reads (spec.class words.one_operand self.old) result self.new }
        ensures onward { OnOk result (length self.new.tokens < length self.old.tokens) }
    {
        match self.next {
            Next::Token(token) => match token.kind {
                TokenKind::Sign(s) => match one_operand(s) {
                    Some(o) => {
                        self.advance();
                        Ok(o)
                    }
                    None => Err(ExprFail::Refused(token.at)),
                },
                TokenKind::Digits(_) => Err(ExprFail::Refused(token.at)),
            },
            Next::End { at, .. } => Err(ExprFail::Refused(at)),
        }
    }

    #[tactic(auto, unfolding(dx_expr_grammar::specs::Reading::class))]
    pub fn two_operands(&mut self) -> Result<Binary, ExprFail>
        ensures reads { Reads (spec.class words.two_operands self.old) result self.new }
        ensures onward { OnOk result (length self.new.tokens < length self.old.tokens) }
    {
        match self.next {
            Next::Token(token) => match token.kind {
                TokenKind::Sign(s) => match two_operands(s) {
                    Some(o) => {
                        self.advance();
                        Ok(o)
                    }
                    None => Err(ExprFail::Refused(token.at)),
                },
                TokenKind::Digits(_) => Err(ExprFail::Refused(token.at)),
            },
            Next::End { at, .. } => Err(ExprFail::Refused(at)),
        }
    }

    /// Whether the text ends here.
    pub fn end(&mut self) -> Result<(), ExprFail>
        ensures { Reads (stream.end words.misfit self.old) result self.new }
    {
        match self.next {
            Next::Token(token) => Err(ExprFail::Refused(token.at)),
            Next::End { at, whole } => {
                if whole {
                    Ok(())
                } else {
                    Err(ExprFail::Refused(at))
                }
            }
        }
    }
}
