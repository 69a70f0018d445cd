//! The files that an execution puts.
ghost use Rattle.std.specs.Prelude.{◌≡◌, ◌<◌, ◌≤◌, ◌+◌, ◌∷◌, [], length, IfOk, OnOk, OnErr};
ghost use Rattle.dx_io.specs.Devices.{PutCause};
ghost use Rattle.dx_native_text.specs.Text.{text_of};
ghost use Rattle.dx_ending.specs.Putting.{export_of, exports_of, ArePut, ArePutBefore};

use dx_base::Bytes;
use dx_io::{ExportFail, Exports};
use dx_native_write::write_object;
use dx_objects::Object;
use dx_tags::{Content, Written};
use std::alloc::{AllocError, Global};

/// A file that is ready to be put.
#[derive(Drop)]
pub struct Put {
    pub name: Bytes,
    pub content: Content,
}

/// The file of an object under a name: its canonical text.
pub fn ready(alloc: Global, name: Bytes, object: &Object) -> Result<Put, AllocError>
    ensures name { IfOk result (λ put. put.name ≡ name) }
    ensures content { IfOk result (λ put. put.content ≡ text_of object.now) }
{
    let text = write_object(alloc, object)?;
    Ok(Put {
        name,
        content: Content::new(alloc, text)?,
    })
}

/// Puts these files in order, up to the first that fails, and keeps what was written. There is room for all of them, so that
/// what is put is kept in any case. It answers `Fault` only where a put has failed.
pub fn make_puts<X: Exports>(
    alloc: Global,
    puts: Vec<Put>,
    exports: &mut X,
    written: &mut Written,
) -> Result<(), ExportFail>
    requires room { length puts.items ≤ written.old.room }
    ensures all { OnOk result (ArePut (X.puts exports.old) (X.puts exports.new) written.old.files written.new.files (exports_of puts.items)) }
    ensures front { OnErr result (ArePutBefore (X.puts exports.old) (X.puts exports.new) written.old.files written.new.files (exports_of puts.items)) }
    ensures cause { PutCause (X.faults exports.old) (X.faults exports.new) result }
{
    for put in puts {
        make_put(alloc, put, exports, written)?;
    }
    Ok(())
}

// Puts one file, and then keeps it as written.
fn make_put<X: Exports>(
    alloc: Global,
    put: Put,
    exports: &mut X,
    written: &mut Written,
) -> Result<(), ExportFail>
    requires room { 0 < written.old.room }
    ensures made { OnOk result (ArePut (X.puts exports.old) (X.puts exports.new) written.old.files written.new.files (export_of put ∷ [])) }
    ensures none { OnErr result (ArePut (X.puts exports.old) (X.puts exports.new) written.old.files written.new.files []) }
    ensures room { OnOk result (written.old.room ≤ written.new.room + 1) }
    ensures cause { PutCause (X.faults exports.old) (X.faults exports.new) result }
{
    let Put { name, content } = put;
    exports.put(alloc, &name, content.bytes())?;
    written.put(name, content);
    Ok(())
}
