//! Laws of the definitions, each as a function that does nothing and ensures it.
ghost use Rattle.std.specs.Prelude.{◌≡◌, ℕ, List, Option, Result, Ok, None, true};
ghost use Rattle.dx_base.specs.Object.{Tree};
ghost use Rattle.dx_base.specs.ObjectLimits.{IsLawful};
ghost use Rattle.dx_base.specs.ObjectNumbers.{steps_by_ints};
ghost use Rattle.dx_native_lex.specs.declared.fault.NativeError.{NativeError};
ghost use Rattle.dx_native_grammar.specs.Native.{IsNative};
ghost use Rattle.dx_native_text.specs.Text.{text_of};

/// A text means exactly one thing: an object, or the kind and the offset of its first fault.
pub fn native_law()
    ensures once { (bytes : List ℕ) (which : Option (List ℕ)) (r q : Result Tree NativeError) → IsNative bytes which r → IsNative bytes which q → r ≡ q }
    ensures always { (bytes : List ℕ) (which : Option (List ℕ)) → (r : Result Tree NativeError) × IsNative bytes which r }
{}

/// Reading what was written of an object, with no name asked for, gives the object again, where its origins and deltas
/// lie in the int range.
pub fn written_law()
    ensures { (t : Tree) → IsLawful t → steps_by_ints t ≡ true → IsNative (text_of t) None (Ok t) }
{}
