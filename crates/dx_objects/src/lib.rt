//! Objects: arrays and texts, fields, groups and series of them, each with attributes. Objects don't change and are
//! shared.
#![tactic(auto)]

mod kinds;
mod library;
mod lookup;
mod makers;
mod measure;
mod members;
mod names;
mod numbers;
mod object;
mod order;
mod outs;
mod parts;
mod run_fail;
mod with;

pub use dx_arrays::{Array, ArrayClass, ArrayError, ElemType, Shape, in_range};
pub use dx_base::{Code, Module, NativeKind};
pub use kinds::Kind;
pub use library::{Library, Recorder, Run};
pub use makers::ObjectError;
pub use measure::{MAX_COUNT, MAX_LEVELS, MAX_SIZE, Measure};
pub use members::MembersError;
pub use numbers::number;
pub use object::{Object, Part};
pub use outs::{Outs, Value};
pub use parts::Parts;
pub use run_fail::RunFail;
pub use with::WithError;
