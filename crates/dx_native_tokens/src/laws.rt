//! Laws of the definitions, each as a function that does nothing and ensures it.
ghost use Rattle.std.specs.Prelude.{◌≡◌, ◌≤◌, ◌++◌, ℕ, ℤ, List, Ok, Err, Some, None, true, false, length};
ghost use Rattle.dx_base.specs.Tokens.Ascii as ascii;
ghost use Rattle.dx_base.specs.Tokens.Classes.{begins};
ghost use Rattle.dx_base.specs.Tokens.Reading as script;
ghost use Rattle.dx_places.specs.Grammar.{At, left};
ghost use Rattle.dx_native_lex.specs.declared.fault.NativeError.{NativeError};
ghost use Rattle.dx_native_lex.specs.Less.{IsSome_token};
ghost use Rattle.dx_native_lex.specs.Raw.{line_end};
ghost use Rattle.dx_native_lex.specs.Scan.{Found, unblanked, token_at, lexed, number_of};
ghost use Rattle.dx_native_tokens.specs.Gaps.{Piece, piece_bytes, ArePieces, IsBehindGap};
ghost use Rattle.dx_native_tokens.specs.LineEnds.{IsLineEnd, IsNoLineEnd, StandsLineEnd};
ghost use Rattle.dx_native_tokens.specs.Numbers.{IsNumber, IsNumberOf};
ghost use Rattle.dx_native_tokens.specs.Scripts.{IsSame};
ghost use Rattle.dx_native_tokens.specs.Standing.{IsNext, IsInOrder};
ghost use Rattle.dx_native_tokens.specs.Tokens.{AreTokens, AreApart, HasTokens};

/// What is passed over before a token is a list of white bytes and of comments, behind which neither begins; only one
/// place is behind such a list, and no list of white bytes and comments goes on further.
pub fn gap_law()
    ensures stands { (s : At) → IsBehindGap s (unblanked false s.offset s.rest) }
    ensures only { (s e : At) → IsBehindGap s e → e ≡ unblanked false s.offset s.rest }
    ensures longest { (s : At) (pieces : List Piece) (rest : List ℕ) → ArePieces pieces rest → s.rest ≡ piece_bytes pieces ++ rest → left (unblanked false s.offset s.rest) ≤ length rest }
{}

/// What is read next is behind the gap the end, the longest word, a string, or a string that is wrong; and nothing else
/// stands next. So tokens are apart and in order.
pub fn token_law()
    ensures stands { (s : At) → IsNext s (lexed s) }
    ensures only { (s : At) (f : Found) → IsNext s f → f ≡ lexed s }
    ensures order { (s : At) → IsSome_token (lexed s).kind → IsInOrder s (lexed s) }
{}

/// From each place on there is exactly one list of tokens, up to the end of the text or to a string that is wrong, and
/// they are apart and in order.
pub fn text_law()
    ensures some { (s : At) → HasTokens s }
    ensures one { (s : At) (l m : List Found) → AreTokens s l → AreTokens s m → l ≡ m }
    ensures apart { (s : At) (l : List Found) → AreTokens s l → AreApart s.offset l }
{}

/// What begins with a quote is what it is in a script: the same text of as many bytes, or refused behind as many bytes.
pub fn string_law()
    ensures { (s : At) → begins ascii.quote s.rest ≡ true → IsSame s (token_at s.offset s.rest) (script.front s.rest) }
{}

/// A line ends before raw data with spaces, tabs and carriage returns and a newline; where another byte or the end of the
/// text comes before the newline, the fault is there.
pub fn line_law()
    ensures stands { (s : At) → StandsLineEnd s (line_end.read s) }
    ensures ends { (s e : At) → IsLineEnd s e → line_end.read s ≡ Ok (tt, e) }
    ensures fails { (s : At) (f : NativeError) → IsNoLineEnd s f → line_end.read s ≡ Err f }
{}

/// A word is a number exactly where it is a sign or none, digits, and then nothing or a point with zeros.
pub fn number_law()
    ensures stands { (word : List ℕ) (z : ℤ) → number_of word ≡ Some z → IsNumberOf word z }
    ensures only { (word : List ℕ) (z : ℤ) → IsNumberOf word z → number_of word ≡ Some z }
    ensures none { (word : List ℕ) → number_of word ≡ None → (v : ℤ) → IsNumber word v → ⊥ }
{}
