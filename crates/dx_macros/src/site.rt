//! The steps that lead to a call, and their text.
ghost use Rattle.std.specs.Prelude.{◌≡◌, ◌++◌, ◌∷◌, map, OnOk, IfOk};
ghost use Rattle.dx_macros.specs.Site.{step_text, steps_text};
ghost use Rattle.dx_macros.specs.SiteBound.{IsShortSite};
ghost use Rattle.dx_macros.specs.Steps.{plain_step, plain_steps, joined};

use dx_base::Bytes;
use itoa::Buffer;
use std::alloc::{AllocError, Global};

/// A step that leads to a call: the k-th call of a name in its text, counted from 1, or the first target of an assignment
/// at the top level.
#[derive(Clone, Copy)]
pub enum SiteStep<'a> {
    Nth(&'a [u8], usize),
    Target(&'a [u8]),
}

fn write_step<'a>(text: &mut Vec<u8>, step: SiteStep<'a>) -> Result<(), AllocError>
    ensures { OnOk result (text.new.items ≡ text.old.items ++ step_text (plain_step step.entry)) }
{
    match step {
        SiteStep::Nth(name, k) => {
            text.extend_from_slice(name)?;
            text.extend_from_slice(b":")?;
            let mut buffer = Buffer::new();
            text.extend_from_slice(buffer.format(k).as_bytes())
        }
        SiteStep::Target(name) => text.extend_from_slice(name),
    }
}

/// The steps joined by `/`: at most 277 bytes for each step, where the names are lawful.
pub fn site_text<'a>(alloc: Global, steps: &[SiteStep<'a>]) -> Result<Bytes, AllocError>
    ensures text { IfOk result (λ text. text ≡ steps_text (plain_steps steps.now)) }
    ensures bound { IfOk result (λ text. IsShortSite (plain_steps steps.now) text) }
{
    let mut text = Vec::new(alloc);
    let mut is_first = true;
    for step in steps {
        if !is_first {
            text.push(b'/')?;
        }
        write_step(&mut text, *step)?;
        is_first = false;
    }
    Ok(Bytes::from_vec(text))
}
