//! The file of a run.
ghost use Rattle.std.specs.Prelude.{◌≡◌, ℕ, List, [], ◌∷◌, None, Some, IfOk, IfErr};
ghost use Rattle.std.specs.Option.{option_copied, option_or};
ghost use Rattle.dx_io.specs.Devices.{FileMap, Cause};
ghost use Rattle.dx_links.specs.Denotes.{Around, file_of};
ghost use Rattle.dx_machine.specs.Machine.{name_read, read_by};
ghost use Rattle.dx_getting.specs.Stands.{IsDevice};
ghost use Rattle.dx_getting.specs.Steps.{AsksFor};
ghost use Rattle.dx_getting.specs.declared.fail.GetFail.TheVariants.{ReadFault};

use crate::fail::GetFail;
use dx_base::{Bytes, Module};
use dx_io::{FileFail, Files};
use dx_objects::Outs;
use dx_tags::Content;
use std::alloc::Global;

// The text that an Import's first input is.
fn name_of(module: Module, inputs: &Outs) -> Option<&[u8]>
    ensures { option_copied result ≡ name_read «module» inputs.now }
{
    if module != Module::Import {
        return None;
    }
    match inputs.value(0) {
        None => None,
        Some(object) => object.as_text(),
    }
}

// The bytes under a name, with the files' failures as those of a getting.
fn read<F: Files>(alloc: Global, name: &[u8], files: &mut F) -> Result<Option<Bytes>, GetFail>
    ensures same { F.content files.new ≡ F.content files.old }
    ensures found { (map : FileMap) → F.content files.old ≡ Some map → IfOk result (λ file. file ≡ map name.now) }
    ensures asks { AsksFor (F.asked files.old) (F.asked files.new) (name.now ∷ []) result }
    ensures cause { Cause ReadFault (F.faults files.old) (F.faults files.new) result }
    ensures fails { IfErr result IsDevice }
{
    let name = Bytes::copy_of(alloc, name)?;
    match files.read(alloc, &name) {
        Ok(file) => Ok(file),
        Err(FileFail::Fault) => Err(GetFail::ReadFault),
        Err(FileFail::Memory) => Err(GetFail::Memory),
    }
}

/// The bytes that are read for a run: where its call has no written file, for an Import whose first input is a text, those of
/// the file of this name, which alone asks the files.
pub(crate) fn read_for<F: Files>(
    alloc: Global,
    module: Module,
    inputs: &Outs,
    own: Option<&Content>,
    files: &mut F,
) -> Result<Option<Bytes>, GetFail>
    ensures same { F.content files.new ≡ F.content files.old }
    ensures own { (bytes : List ℕ) → option_copied own.entry ≡ Some bytes → IfOk result (λ read. read ≡ None) }
    ensures found { (a : Around) → F.content files.old ≡ Some a.file → IfOk result (λ read. option_or (option_copied own.entry) read ≡ file_of a «module» inputs.now (option_copied own.entry)) }
    ensures asks { AsksFor (F.asked files.old) (F.asked files.new) (read_by (option_copied own.entry) («module», inputs.now)) result }
    ensures cause { Cause ReadFault (F.faults files.old) (F.faults files.new) result }
    ensures fails { IfErr result IsDevice }
{
    match own {
        Some(_) => Ok(None),
        None => match name_of(module, inputs) {
            None => Ok(None),
            Some(name) => read(alloc, name, files),
        },
    }
}

/// The file of a run: the written file that its call has, which is lent, else the one that was read.
pub(crate) fn own_or_read<'a>(
    own: Option<&'a Content>,
    read: Option<&'a Bytes>,
) -> Option<&'a Bytes>
    ensures { option_copied result ≡ option_or (option_copied own.entry) (option_copied read.entry) }
{
    match own {
        Some(content) => Some(content.whole()),
        None => read,
    }
}
