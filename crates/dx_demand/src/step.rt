//! One step for a port: it is settled, or waits for another, or for a value.
ghost use Rattle.dx_demand.specs.Terms.{MayRead, AreArguments, AreExact, IsValue};
ghost use Rattle.std.specs.Prelude.{◌≡◌, ◌<◌, ◌≤◌, List, [], ◌∷◌, ◌++◌, Option, Some, is_some, true, ℕ, length, slice_get, IfOk, OnOk};
ghost use Rattle.dx_ast.specs.Lawful.{IsLawfulConst};
ghost use Rattle.dx_base.specs.declared.function.Function.TheVariants as function;
ghost use Rattle.dx_graph.specs.Graph.{Node, node_at, MayTake};
ghost use Rattle.dx_graph.specs.GraphView.{graph_of};
ghost use Rattle.dx_base.specs.Modules.{Takes};
ghost use Rattle.dx_tags.specs.declared.term.Term.TheVariants as term;
ghost use Rattle.dx_tags.specs.Whole.{is_file, IsWhole};
ghost use Rattle.dx_tags.specs.Closed.{ConstantTerm, ResultTerm, FileTerm, CallOf, IsFormed, NoneHeld, GoesOn, NamesHead, heads_of, head_of, result_of_head, value_term, value_terms, AreEarlier, Fits, head_at};
ghost use Rattle.dx_tags.specs.declared.term.ValueTag.{ValueTag};
ghost use Rattle.dx_ast.specs.declared.constants.Const.TheVariants as const;
ghost use Rattle.dx_meaning.specs.Outcome.{Value};
ghost use Rattle.dx_demand.specs.Given.{value_behind};
ghost use Rattle.dx_meaning.specs.Picking as plain;
ghost use Rattle.dx_meaning.specs.Picking.{selector_at, module_selector, IsSelecting};
ghost use Rattle.dx_meaning.specs.Scan as scans;
ghost use Rattle.dx_meaning.specs.Scan.{Sight, scanned_at, all_scanned, call_scanned, with_file, picked_scanned, terms_in};
ghost use Rattle.dx_meaning.specs.More.{More};
ghost use Rattle.dx_demand.specs.Memo.{FirstNodes, answers_of, formed_of, with_formed, node_scans, port_scan, IsPort, MemoFits, MemoRight};
ghost use Rattle.dx_demand.specs.Stack.{Begins};
ghost use Rattle.dx_meaning.specs.Forming.{after, with_term, file_forms, call_formed, HasAll};
ghost use Rattle.dx_meaning.specs.Met.{met_at, picked_met};
ghost use Rattle.dx_demand.specs.Calling.{SelectorsValued, AreValued, KnownValued, StepMet, SelectionMet, IsNoModule, node_met, port_met};
ghost use Rattle.dx_demand.specs.Forming.{named_terms, formings, with_own, IsCallTag, NameCalls, MemoFormed, KnownForms, input_forms, node_forms, first_forms, forms_with, HasFront, calls_forms, input_part, pick_part, FormsStep, FormsSelection};
ghost use Rattle.dx_demand.specs.Picked.{LinksFit};
ghost use Rattle.dx_demand.specs.Found.{NeedsNoCall, Kept, AllFound, ArgumentsFound, MemoFound, KnownFound, StepFound, SelectionFound};
ghost use Rattle.dx_links.specs.LinkMap.{LinkMap};
ghost use Rattle.dx_demand.specs.Steps.{Holds, Tells, Wrote, Sees, IsPicking, KnownFits, KnownRight, StepFits, StepRight, TakesAll, TakesInput, TakesPick, SelectionFits, SelectionRight, KeepsSelectors};

use crate::given::Given;
use crate::pick::{Pick, pick_of};
use crate::seen::Memo;
use crate::settled::{Answer, Port, Settled};
use dx_ast::Const;
use dx_base::{Bytes, Code, Effect, Function, Module, Shared};
use dx_graph::{Graph, Input};
use dx_links::Links;
use dx_objects::Object;
use dx_tags::{Content, Tag, Tags, Term, ValueTag, ValueTags, Written};
use std::alloc::{AllocError, Global};
use std::mem;

/// An input that is settled, or the port that isn't.
#[derive(Clone, Copy, Debug)]
pub(crate) enum Known {
    Settled(Settled),
    Open(Port),
}

/// What is to be done for a port: it is settled, or it waits for another one, or for the value of its selector.
#[derive(Clone, Copy, Debug)]
pub(crate) enum Step {
    Settles(Answer),
    Awaits(Port),
    Needs(ValueTag),
}

/// The tag of a term whose parts are there.
fn name(tags: &mut Tags, t: Term) -> Result<Tag, AllocError>
    requires formed { AreExact tags.old }
    requires within { IsFormed (heads_of tags.old) (length tags.old) t }
    requires whole { IsWhole (heads_of tags.old) t }
    ensures formed { AreExact tags.new }
    ensures goes_on { NoneHeld (t ∷ []) → GoesOn tags.old tags.new }
    ensures named { IfOk result (λ tag. NamesHead tags.new tag (head_of (heads_of tags.old) t)) }
    ensures slot { IfOk result (λ tag. slice_get tags.new tag ≡ Some t) }
    ensures terms { OnOk result (named_terms tags.new ≡ with_term (result_of_head (head_of (heads_of tags.old) t) 0) (named_terms tags.old)) }
{
    tags.intern(t)
}

/// The term of a constant.
pub(crate) fn constant_tag(tags: &mut Tags, c: Const) -> Result<ValueTag, AllocError>
    requires formed { AreExact tags.old }
    requires lawful { ∥ IsLawfulConst c ∥₁ }
    ensures formed { AreExact tags.new }
    ensures goes_on { GoesOn tags.old tags.new }
    ensures fits { IfOk result (λ t. IsValue tags.new t) }
    ensures named { IfOk result (λ t. value_term (heads_of tags.new) t ≡ ConstantTerm c) }
    ensures ready { IfOk result (λ t. NeedsNoCall (head_at (heads_of tags.new) t.tag)) }
    ensures terms { OnOk result (named_terms tags.new ≡ with_term (ConstantTerm c) (named_terms tags.old)) }
{
    let tag = name(tags, Term::Constant(c))?;
    Ok(ValueTag { tag, result: 0 })
}

/// A result of a call of a module.
fn call_tag(
    tags: &mut Tags,
    called: Module,
    arguments: ValueTags,
    result_number: u32,
) -> Result<ValueTag, AllocError>
    requires formed { AreExact tags.old }
    requires earlier { AreEarlier (heads_of tags.old) (length tags.old) arguments }
    requires whole { IsWhole (heads_of tags.old) (term.Call called arguments) }
    ensures formed { AreExact tags.new }
    ensures goes_on { GoesOn tags.old tags.new }
    ensures fits { IfOk result (λ t. IsValue tags.new t) }
    ensures named { IfOk result (λ t. value_term (heads_of tags.new) t ≡ ResultTerm result_number (CallOf called (value_terms (heads_of tags.old) arguments))) }
    ensures slot { IfOk result (λ t. slice_get tags.new t.tag ≡ Some (term.Call called arguments)) }
    ensures terms { OnOk result (named_terms tags.new ≡ with_term (ResultTerm 0 (CallOf called (value_terms (heads_of tags.old) arguments))) (named_terms tags.old)) }
{
    let tag = name(tags, Term::Call(called, arguments))?;
    Ok(ValueTag {
        tag,
        result: result_number,
    })
}

/// What is known of an input of a node.
fn known_of(g: &Graph, i: &Input, tags: &mut Tags, memo: &Memo) -> Result<Known, AllocError>
    requires input { MayTake (graph_of g.now).nodes (length (graph_of g.now).nodes) i.now }
    requires formed { AreExact tags.old }
    requires memo { MemoFits (graph_of g.now).nodes tags.old memo.now }
    ensures formed { AreExact tags.new }
    ensures goes_on { GoesOn tags.old tags.new }
    ensures fits { IfOk result (λ k. KnownFits (graph_of g.now).nodes tags.new (answers_of memo.now) i.now k) }
    ensures right { (s : Sight) → MemoRight s (graph_of g.now).nodes tags.old memo.now → IfOk result (λ k. KnownRight s (graph_of g.now).nodes tags.new i.now k) }
    ensures found { (l : LinkMap) → MemoFound l tags.old memo.now → IfOk result (λ k. KnownFound l tags.new (formed_of memo.now) k) }
    ensures forms { (s : Sight) → MemoFormed s (graph_of g.now).nodes tags.old memo.now → IfOk result (λ k. KnownForms (input_forms s (graph_of g.now).nodes i.now) (formings (graph_of g.now).nodes tags.old memo.now) (formings (graph_of g.now).nodes tags.new memo.now) k) }
    ensures valued { IfOk result (λ k. KnownValued (answers_of memo.now) i.now k) }
{
    match i {
        Input::Constant(c) => {
            let t = constant_tag(tags, c.share()?)?;
            Ok(Known::Settled(Settled::Value(t)))
        }
        Input::Result(node, result_number) => {
            let port = Port {
                node: *node,
                result: *result_number,
            };
            match memo.answer(port) {
                Some(a) => Ok(Known::Settled(a.settled)),
                None => Ok(Known::Open(port)),
            }
        }
    }
}

/// The term of the bytes of a file.
fn file_tag(tags: &mut Tags, content: Content) -> Result<ValueTag, AllocError>
    requires formed { AreExact tags.old }
    ensures formed { AreExact tags.new }
    ensures goes_on { GoesOn tags.old tags.new }
    ensures fits { IfOk result (λ t. Fits tags.new t) }
    ensures file { IfOk result (λ t. is_file (head_at (heads_of tags.new) t.tag) ≡ true) }
    ensures named { IfOk result (λ t. value_term (heads_of tags.new) t ≡ FileTerm content) }
    ensures ready { IfOk result (λ t. NeedsNoCall (head_at (heads_of tags.new) t.tag)) }
    ensures terms { OnOk result (named_terms tags.new ≡ with_term (FileTerm content) (named_terms tags.old)) }
{
    let tag = name(tags, Term::File(content))?;
    Ok(ValueTag { tag, result: 0 })
}

/// The arguments of a call, and behind them the file if there is one.
fn arguments_with(
    called: Module,
    tags: &mut Tags,
    mut arguments: ValueTags,
    file: Option<Content>,
) -> Result<ValueTags, AllocError>
    requires formed { AreExact tags.old }
    requires earlier { AreArguments tags.old arguments }
    requires takes { Takes called (length arguments) }
    requires reads { MayRead called file }
    ensures formed { AreExact tags.new }
    ensures goes_on { GoesOn tags.old tags.new }
    ensures earlier { IfOk result (λ all. AreEarlier (heads_of tags.new) (length tags.new) all) }
    ensures whole { IfOk result (λ all. IsWhole (heads_of tags.new) (term.Call called all)) }
    ensures named { IfOk result (λ all. value_terms (heads_of tags.new) all ≡ with_file (value_terms (heads_of tags.old) arguments) file) }
    ensures found { (l : LinkMap) (first : FirstNodes) → AllFound l tags.old first arguments → IfOk result (λ all. AllFound l tags.new first all) }
    ensures terms { OnOk result (named_terms tags.new ≡ with_own file (named_terms tags.old)) }
{
    match file {
        None => Ok(arguments),
        Some(content) => {
            let t = file_tag(tags, content)?;
            arguments.push(t)?;
            Ok(arguments)
        }
    }
}

/// A result of a call of a module on these arguments, behind which its file stands.
fn call_of_all(
    called: Module,
    arguments: ValueTags,
    file: Option<Content>,
    port: Port,
    tags: &mut Tags,
    memo: &mut Memo,
) -> Result<ValueTag, AllocError>
    requires formed { AreExact tags.old }
    requires earlier { AreArguments tags.old arguments }
    requires takes { Takes called (length arguments) }
    requires reads { MayRead called file }
    ensures formed { AreExact tags.new }
    ensures goes_on { GoesOn tags.old tags.new }
    ensures fits { IfOk result (λ t. IsValue tags.new t) }
    ensures named { IfOk result (λ t. value_term (heads_of tags.new) t ≡ ResultTerm port.result (CallOf called (with_file (value_terms (heads_of tags.old) arguments) file))) }
    ensures answers { memo.new.answers ≡ memo.old.answers }
    ensures selectors { memo.new.selectors ≡ memo.old.selectors }
    ensures first { IfOk result (λ t. formed_of memo.new ≡ with_formed (formed_of memo.old) t.tag port.node) }
    ensures found { (l : LinkMap) → AllFound l tags.old (formed_of memo.old) arguments → IfOk result (λ t. ArgumentsFound l tags.new (formed_of memo.old) t.tag) }
    ensures called { IfOk result (λ t. IsCallTag tags.new t.tag) }
    ensures forms { (nodes : List Node) → NameCalls tags.old memo.old → OnOk result (formings nodes tags.new memo.new ≡ after (file_forms file ++ call_formed (node_at nodes port.node).place called file (value_terms (heads_of tags.old) arguments) ∷ []) (formings nodes tags.old memo.old)) }
{
    let all = arguments_with(called, tags, arguments, file)?;
    let t = call_tag(tags, called, all, port.result)?;
    memo.form(t.tag, port.node)?;
    Ok(t)
}

/// A call of a module takes its arguments in order, as far as they are settled, and then forms its term, with the file
/// that it has.
fn module_step(
    alloc: Global,
    g: &Graph,
    called: Module,
    port: Port,
    file: Option<Content>,
    arguments: &mut ValueTags,
    tags: &mut Tags,
    memo: &mut Memo,
) -> Result<Step, AllocError>
    requires port { IsPort (graph_of g.now).nodes port }
    requires what { (node_at (graph_of g.now).nodes port.node).what ≡ function.Module called }
    requires reads { MayRead called file }
    requires formed { AreExact tags.old }
    requires memo { MemoFits (graph_of g.now).nodes tags.old memo.old }
    requires few { length arguments.old ≤ length (node_at (graph_of g.now).nodes port.node).inputs }
    requires earlier { AreArguments tags.old arguments.old }
    ensures formed { AreExact tags.new }
    ensures goes_on { GoesOn tags.old tags.new }
    ensures few { OnOk result (length arguments.new ≤ length (node_at (graph_of g.now).nodes port.node).inputs) }
    ensures earlier { OnOk result (AreArguments tags.new arguments.new) }
    ensures answers { answers_of memo.new ≡ answers_of memo.old }
    ensures selectors { memo.new.selectors ≡ memo.old.selectors }
    ensures memo { OnOk result (MemoFits (graph_of g.now).nodes tags.new memo.new) }
    ensures fits { (given : ValueTag → Option Value) → IfOk result (λ x. StepFits (graph_of g.now).nodes tags.new given memo.new port x) }
    ensures memo_right { (s : Sight) → MemoRight s (graph_of g.now).nodes tags.old memo.old → OnOk result (MemoRight s (graph_of g.now).nodes tags.new memo.new) }
    ensures begins { (s : Sight) → MemoRight s (graph_of g.now).nodes tags.old memo.old → Begins (heads_of tags.old) (node_scans s (graph_of g.now).nodes port.node) arguments.old →
        OnOk result (Begins (heads_of tags.new) (node_scans s (graph_of g.now).nodes port.node) arguments.new) }
    ensures right { (s : Sight) → MemoRight s (graph_of g.now).nodes tags.old memo.old → Begins (heads_of tags.old) (node_scans s (graph_of g.now).nodes port.node) arguments.old →
        TakesAll s (graph_of g.now).nodes port called file →
        IfOk result (λ x. StepRight s (graph_of g.now).nodes tags.new port x) }
    ensures first { OnOk result (Kept (formed_of memo.old) (formed_of memo.new)) }
    ensures memo_found { (l : LinkMap) → MemoFound l tags.old memo.old → AllFound l tags.old (formed_of memo.old) arguments.old → OnOk result (MemoFound l tags.new memo.new) }
    ensures arguments_found { (l : LinkMap) → MemoFound l tags.old memo.old → AllFound l tags.old (formed_of memo.old) arguments.old → OnOk result (AllFound l tags.new (formed_of memo.new) arguments.new) }
    ensures found { (l : LinkMap) → MemoFound l tags.old memo.old → AllFound l tags.old (formed_of memo.old) arguments.old → IfOk result (λ x. StepFound l tags.new (formed_of memo.new) x) }
    ensures forms { (s : Sight) → MemoRight s (graph_of g.now).nodes tags.old memo.old → Begins (heads_of tags.old) (node_scans s (graph_of g.now).nodes port.node) arguments.old → MemoFormed s (graph_of g.now).nodes tags.old memo.old → HasAll (formings (graph_of g.now).nodes tags.old memo.old) (first_forms (length arguments.old) (node_forms s (graph_of g.now).nodes port.node)) →
        HasFront s (graph_of g.now).nodes (formings (graph_of g.now).nodes tags.old memo.old) port (calls_forms (graph_of g.now).nodes port called file) → IfOk result (λ x. FormsStep s (graph_of g.now).nodes tags.old memo.old tags.new memo.new port (length arguments.new) x) }
    ensures valued { AreValued (answers_of memo.old) (node_at (graph_of g.now).nodes port.node).inputs (length arguments.old) → OnOk result (AreValued (answers_of memo.old) (node_at (graph_of g.now).nodes port.node).inputs (length arguments.new)) }
    ensures met { (s : Sight) → AreValued (answers_of memo.old) (node_at (graph_of g.now).nodes port.node).inputs (length arguments.old) → IfOk result (λ x. StepMet s (graph_of g.now).nodes (answers_of memo.old) port x) }
{
    let inputs = g.node(port.node).inputs.as_slice();
    while arguments.len() < inputs.len() {
        match known_of(g, &inputs[arguments.len()], tags, memo)? {
            Known::Settled(Settled::Value(t)) => arguments.push(t)?,
            Known::Settled(Settled::Off) => return Ok(Step::Settles(Answer {
                settled: Settled::Off,
                input: None,
            })),
            Known::Settled(Settled::Halt(n, code)) => return Ok(Step::Settles(Answer {
                settled: Settled::Halt(n, code),
                input: None,
            })),
            Known::Open(awaited) => return Ok(Step::Awaits(awaited)),
        }
    }
    let all = mem::replace(arguments, ValueTags::new(alloc));
    let t = call_of_all(called, all, file, port, tags, memo)?;
    Ok(Step::Settles(Answer {
        settled: Settled::Value(t),
        input: None,
    }))
}

/// The port comes to what its node's input number k comes to, or to NULL where there is no such input.
fn chosen(g: &Graph, port: Port, k: usize, tags: &mut Tags, memo: &Memo) -> Result<Step, AllocError>
    requires port { IsPort (graph_of g.now).nodes port }
    requires formed { AreExact tags.old }
    requires memo { MemoFits (graph_of g.now).nodes tags.old memo.now }
    ensures formed { AreExact tags.new }
    ensures goes_on { GoesOn tags.old tags.new }
    ensures fits { (given : ValueTag → Option Value) → IfOk result (λ x. StepFits (graph_of g.now).nodes tags.new given memo.now port x) }
    ensures right { (s : Sight) → MemoRight s (graph_of g.now).nodes tags.old memo.now →
        TakesInput s (graph_of g.now).nodes port k →
        IfOk result (λ x. StepRight s (graph_of g.now).nodes tags.new port x) }
    ensures found { (l : LinkMap) → MemoFound l tags.old memo.now → IfOk result (λ x. StepFound l tags.new (formed_of memo.now) x) }
    ensures forms { (s : Sight) → MemoFormed s (graph_of g.now).nodes tags.old memo.now → HasFront s (graph_of g.now).nodes (formings (graph_of g.now).nodes tags.old memo.now) port (input_part (graph_of g.now).nodes port k) →
        IfOk result (λ x. FormsStep s (graph_of g.now).nodes tags.old memo.now tags.new memo.now port 0 x) }
    ensures met { (s : Sight) → IsNoModule (node_at (graph_of g.now).nodes port.node).what → port_met s (graph_of g.now).nodes port ≡ met_at (node_met s (graph_of g.now).nodes port.node) k → IfOk result (λ x. StepMet s (graph_of g.now).nodes (answers_of memo.now) port x) }
{
    let inputs = g.node(port.node).inputs.as_slice();
    if k < inputs.len() {
        match known_of(g, &inputs[k], tags, memo)? {
            Known::Settled(settled) => Ok(Step::Settles(Answer {
                settled,
                input: Some(k),
            })),
            Known::Open(awaited) => Ok(Step::Awaits(awaited)),
        }
    } else {
        let t = constant_tag(tags, Const::Null)?;
        Ok(Step::Settles(Answer {
            settled: Settled::Value(t),
            input: None,
        }))
    }
}

/// What a node's selector comes to: its term, or the step that is due before.
#[derive(Clone, Copy, Debug)]
enum Selection {
    Selects(ValueTag),
    Before(Step),
}

fn select_term(
    g: &Graph,
    port: Port,
    place: usize,
    tags: &mut Tags,
    memo: &mut Memo,
) -> Result<Selection, AllocError>
    requires port { IsPort (graph_of g.now).nodes port }
    requires selects { IsSelecting (node_at (graph_of g.now).nodes port.node).what }
    requires place { place ≡ selector_at (node_at (graph_of g.now).nodes port.node).what }
    requires formed { AreExact tags.old }
    requires memo { MemoFits (graph_of g.now).nodes tags.old memo.old }
    ensures formed { AreExact tags.new }
    ensures goes_on { GoesOn tags.old tags.new }
    ensures answers { answers_of memo.new ≡ answers_of memo.old }
    ensures memo { OnOk result (MemoFits (graph_of g.now).nodes tags.new memo.new) }
    ensures kept { KeepsSelectors memo.old memo.new }
    ensures fits { (given : ValueTag → Option Value) → IfOk result (λ x. SelectionFits (graph_of g.now).nodes tags.new given memo.new port x) }
    ensures memo_right { (s : Sight) → MemoRight s (graph_of g.now).nodes tags.old memo.old → OnOk result (MemoRight s (graph_of g.now).nodes tags.new memo.new) }
    ensures right { (s : Sight) → MemoRight s (graph_of g.now).nodes tags.old memo.old → IfOk result (λ x. SelectionRight s (graph_of g.now).nodes tags.new port x) }
    ensures same { memo.new.formed ≡ memo.old.formed }
    ensures memo_found { (l : LinkMap) → MemoFound l tags.old memo.old → OnOk result (MemoFound l tags.new memo.new) }
    ensures found { (l : LinkMap) → MemoFound l tags.old memo.old → IfOk result (λ x. SelectionFound l tags.new (formed_of memo.new) x) }
    ensures forms { (s : Sight) → MemoRight s (graph_of g.now).nodes tags.old memo.old → MemoFormed s (graph_of g.now).nodes tags.old memo.old →
        IfOk result (λ x. FormsSelection s (graph_of g.now).nodes tags.old memo.old tags.new memo.new port x) }
    ensures met { (s : Sight) → IfOk result (λ x. SelectionMet s (graph_of g.now).nodes (answers_of memo.old) port x) }
    ensures selected { SelectorsValued (graph_of g.now).nodes memo.old → OnOk result (SelectorsValued (graph_of g.now).nodes memo.new) }
{
    match memo.selector(port.node) {
        Some(t) => Ok(Selection::Selects(t)),
        None => match known_of(g, &g.node(port.node).inputs.as_slice()[place], tags, memo)? {
            Known::Settled(Settled::Value(t)) => {
                memo.select(port.node, t);
                Ok(Selection::Selects(t))
            }
            Known::Settled(Settled::Off) => Ok(Selection::Before(Step::Settles(Answer {
                settled: Settled::Off,
                input: None,
            }))),
            Known::Settled(Settled::Halt(n, code)) => Ok(Selection::Before(Step::Settles(
                Answer {
                    settled: Settled::Halt(n, code),
                    input: None,
                },
            ))),
            Known::Open(awaited) => Ok(Selection::Before(Step::Awaits(awaited))),
        },
    }
}

/// How many bytes a text has at most that is an object: 64 bytes more are the greatest size of one.
const LONGEST_TEXT: usize = 268_435_392;

/// A text as a constant. One that is too long to be the text of an object is refused as want of memory; no name is so long.
fn text_constant(alloc: Global, name: Bytes) -> Result<Const, AllocError>
    ensures lawful { IfOk result (λ c. ∥ IsLawfulConst c ∥₁) }
    ensures text { IfOk result (λ c. c ≡ const.Text name) }
{
    if name.bytes().len() > LONGEST_TEXT {
        return Err(AllocError);
    }
    Ok(Const::Text(Shared::from_vec(alloc, name.into_vec()?)?))
}

/// The port comes to what the value of its node's selector picks.
fn picked(
    alloc: Global,
    g: &Graph,
    port: Port,
    v: Option<&Object>,
    links: &Links,
    tags: &mut Tags,
    memo: &Memo,
) -> Result<Step, AllocError>
    requires port { IsPort (graph_of g.now).nodes port }
    requires formed { AreExact tags.old }
    requires memo { MemoFits (graph_of g.now).nodes tags.old memo.now }
    requires links { LinksFit tags.old links.now.links }
    ensures formed { AreExact tags.new }
    ensures goes_on { GoesOn tags.old tags.new }
    ensures fits { (given : ValueTag → Option Value) → IfOk result (λ x. StepFits (graph_of g.now).nodes tags.new given memo.now port x) }
    ensures right { (s : Sight) → Holds links.now.links tags.new s → MemoRight s (graph_of g.now).nodes tags.old memo.now →
        TakesPick s (graph_of g.now).nodes port (value_behind v.entry) →
        IfOk result (λ x. StepRight s (graph_of g.now).nodes tags.new port x) }
    ensures found { MemoFound links.now.links tags.old memo.now → IfOk result (λ x. StepFound links.now.links tags.new (formed_of memo.now) x) }
    ensures forms { (s : Sight) → MemoFormed s (graph_of g.now).nodes tags.old memo.now →
        HasFront s (graph_of g.now).nodes (formings (graph_of g.now).nodes tags.old memo.now) port (pick_part (graph_of g.now).nodes port (plain.pick (forms_with links.now.links) (node_at (graph_of g.now).nodes port.node).what (node_at (graph_of g.now).nodes port.node).place port.result (value_behind v.entry))) →
        IfOk result (λ x. FormsStep s (graph_of g.now).nodes tags.old memo.now tags.new memo.now port 0 x) }
    ensures met { (s : Sight) → Holds links.now.links tags.new s → IsNoModule (node_at (graph_of g.now).nodes port.node).what → port_met s (graph_of g.now).nodes port ≡ picked_met (node_met s (graph_of g.now).nodes port.node) (plain.pick (terms_in s) (node_at (graph_of g.now).nodes port.node).what (node_at (graph_of g.now).nodes port.node).place port.result (value_behind v.entry)) →
        IfOk result (λ x. StepMet s (graph_of g.now).nodes (answers_of memo.now) port x) }
{
    match pick_of(alloc, g, port.node, port.result, v, links)? {
        Pick::Null => {
            let t = constant_tag(tags, Const::Null)?;
            Ok(Step::Settles(Answer {
                settled: Settled::Value(t),
                input: None,
            }))
        }
        Pick::Text(name) => {
            let t = constant_tag(tags, text_constant(alloc, name)?)?;
            Ok(Step::Settles(Answer {
                settled: Settled::Value(t),
                input: None,
            }))
        }
        Pick::Held(t) => Ok(Step::Settles(Answer {
            settled: Settled::Value(t),
            input: None,
        })),
        Pick::Off => Ok(Step::Settles(Answer {
            settled: Settled::Off,
            input: None,
        })),
        Pick::Fault => Ok(Step::Settles(Answer {
            settled: Settled::Halt(port.node, Code::BadArgument),
            input: None,
        })),
        Pick::Input(k) => chosen(g, port, k, tags, memo),
    }
}

/// A call with a selector looks at its value, and goes on with what that picks.
fn selector_step<G: Given>(
    alloc: Global,
    g: &Graph,
    port: Port,
    place: usize,
    links: &Links,
    tags: &mut Tags,
    memo: &mut Memo,
    given: &G,
) -> Result<Step, AllocError>
    requires port { IsPort (graph_of g.now).nodes port }
    requires selects { IsPicking (node_at (graph_of g.now).nodes port.node).what }
    requires place { place ≡ selector_at (node_at (graph_of g.now).nodes port.node).what }
    requires formed { AreExact tags.old }
    requires memo { MemoFits (graph_of g.now).nodes tags.old memo.old }
    requires links { LinksFit tags.old links.now.links }
    ensures formed { AreExact tags.new }
    ensures goes_on { GoesOn tags.old tags.new }
    ensures answers { answers_of memo.new ≡ answers_of memo.old }
    ensures memo { OnOk result (MemoFits (graph_of g.now).nodes tags.new memo.new) }
    ensures kept { KeepsSelectors memo.old memo.new }
    ensures fits { IfOk result (λ x. StepFits (graph_of g.now).nodes tags.new (G.told given.now) memo.new port x) }
    ensures memo_right { (s : Sight) → MemoRight s (graph_of g.now).nodes tags.old memo.old → OnOk result (MemoRight s (graph_of g.now).nodes tags.new memo.new) }
    ensures right { (s : Sight) → Tells (G.told given.now) tags.new s → Holds links.now.links tags.new s → MemoRight s (graph_of g.now).nodes tags.old memo.old →
        IfOk result (λ x. StepRight s (graph_of g.now).nodes tags.new port x) }
    ensures same { memo.new.formed ≡ memo.old.formed }
    ensures memo_found { MemoFound links.now.links tags.old memo.old → OnOk result (MemoFound links.now.links tags.new memo.new) }
    ensures found { MemoFound links.now.links tags.old memo.old → IfOk result (λ x. StepFound links.now.links tags.new (formed_of memo.new) x) }
    ensures forms { (s : Sight) → Tells (G.told given.now) tags.new s → Holds links.now.links tags.new s → MemoRight s (graph_of g.now).nodes tags.old memo.old → MemoFormed s (graph_of g.now).nodes tags.old memo.old →
        IfOk result (λ x. FormsStep s (graph_of g.now).nodes tags.old memo.old tags.new memo.new port 0 x) }
    ensures met { (s : Sight) → Tells (G.told given.now) tags.new s → Holds links.now.links tags.new s → MemoRight s (graph_of g.now).nodes tags.old memo.old → IfOk result (λ x. StepMet s (graph_of g.now).nodes (answers_of memo.old) port x) }
    ensures selected { SelectorsValued (graph_of g.now).nodes memo.old → OnOk result (SelectorsValued (graph_of g.now).nodes memo.new) }
{
    match select_term(g, port, place, tags, memo)? {
        Selection::Before(first) => Ok(first),
        Selection::Selects(t) => match given.value(t) {
            None => Ok(Step::Needs(t)),
            Some(v) => picked(alloc, g, port, v, links, tags, memo),
        },
    }
}

/// The file that was written under the name that a value is.
fn written_for(v: Option<&Object>, written: &Written) -> Result<Option<Content>, AllocError>
    ensures { (s : Sight) → Wrote written.now.files s → IfOk result (λ file. file ≡ scans.written_for s (value_behind v.entry)) }
{
    match v {
        None => Ok(None),
        Some(o) => match o.as_text() {
            None => Ok(None),
            Some(name) => match written.get(name) {
                None => Ok(None),
                Some(content) => Ok(Some(content.share()?)),
            },
        },
    }
}

/// An Import looks at the value of its name, and goes on as a call of a module, with the file that was written under it.
fn import_step<G: Given>(
    alloc: Global,
    g: &Graph,
    called: Module,
    port: Port,
    arguments: &mut ValueTags,
    written: &Written,
    tags: &mut Tags,
    memo: &mut Memo,
    given: &G,
) -> Result<Step, AllocError>
    requires port { IsPort (graph_of g.now).nodes port }
    requires what { (node_at (graph_of g.now).nodes port.node).what ≡ function.Module called }
    requires selects { module_selector called ≡ Some 0 }
    requires formed { AreExact tags.old }
    requires memo { MemoFits (graph_of g.now).nodes tags.old memo.old }
    requires few { length arguments.old ≤ length (node_at (graph_of g.now).nodes port.node).inputs }
    requires earlier { AreArguments tags.old arguments.old }
    ensures formed { AreExact tags.new }
    ensures goes_on { GoesOn tags.old tags.new }
    ensures few { OnOk result (length arguments.new ≤ length (node_at (graph_of g.now).nodes port.node).inputs) }
    ensures earlier { OnOk result (AreArguments tags.new arguments.new) }
    ensures answers { answers_of memo.new ≡ answers_of memo.old }
    ensures memo { OnOk result (MemoFits (graph_of g.now).nodes tags.new memo.new) }
    ensures kept { KeepsSelectors memo.old memo.new }
    ensures fits { IfOk result (λ x. StepFits (graph_of g.now).nodes tags.new (G.told given.now) memo.new port x) }
    ensures memo_right { (s : Sight) → MemoRight s (graph_of g.now).nodes tags.old memo.old → OnOk result (MemoRight s (graph_of g.now).nodes tags.new memo.new) }
    ensures begins { (s : Sight) → MemoRight s (graph_of g.now).nodes tags.old memo.old → Begins (heads_of tags.old) (node_scans s (graph_of g.now).nodes port.node) arguments.old →
        OnOk result (Begins (heads_of tags.new) (node_scans s (graph_of g.now).nodes port.node) arguments.new) }
    ensures right { (s : Sight) → Tells (G.told given.now) tags.new s → Wrote written.now.files s → MemoRight s (graph_of g.now).nodes tags.old memo.old → Begins (heads_of tags.old) (node_scans s (graph_of g.now).nodes port.node) arguments.old →
        IfOk result (λ x. StepRight s (graph_of g.now).nodes tags.new port x) }
    ensures first { OnOk result (Kept (formed_of memo.old) (formed_of memo.new)) }
    ensures memo_found { (l : LinkMap) → MemoFound l tags.old memo.old → AllFound l tags.old (formed_of memo.old) arguments.old → OnOk result (MemoFound l tags.new memo.new) }
    ensures arguments_found { (l : LinkMap) → MemoFound l tags.old memo.old → AllFound l tags.old (formed_of memo.old) arguments.old → OnOk result (AllFound l tags.new (formed_of memo.new) arguments.new) }
    ensures found { (l : LinkMap) → MemoFound l tags.old memo.old → AllFound l tags.old (formed_of memo.old) arguments.old → IfOk result (λ x. StepFound l tags.new (formed_of memo.new) x) }
    ensures forms { (s : Sight) → Tells (G.told given.now) tags.new s → Wrote written.now.files s → MemoRight s (graph_of g.now).nodes tags.old memo.old → Begins (heads_of tags.old) (node_scans s (graph_of g.now).nodes port.node) arguments.old → MemoFormed s (graph_of g.now).nodes tags.old memo.old → HasAll (formings (graph_of g.now).nodes tags.old memo.old) (first_forms (length arguments.old) (node_forms s (graph_of g.now).nodes port.node)) →
        IfOk result (λ x. FormsStep s (graph_of g.now).nodes tags.old memo.old tags.new memo.new port (length arguments.new) x) }
    ensures valued { AreValued (answers_of memo.old) (node_at (graph_of g.now).nodes port.node).inputs (length arguments.old) → OnOk result (AreValued (answers_of memo.old) (node_at (graph_of g.now).nodes port.node).inputs (length arguments.new)) }
    ensures met { (s : Sight) → AreValued (answers_of memo.old) (node_at (graph_of g.now).nodes port.node).inputs (length arguments.old) → IfOk result (λ x. StepMet s (graph_of g.now).nodes (answers_of memo.old) port x) }
    ensures selected { SelectorsValued (graph_of g.now).nodes memo.old → OnOk result (SelectorsValued (graph_of g.now).nodes memo.new) }
{
    match select_term(g, port, 0, tags, memo)? {
        Selection::Before(first) => Ok(first),
        Selection::Selects(t) => match given.value(t) {
            None => Ok(Step::Needs(t)),
            Some(v) => {
                let file = written_for(v, written)?;
                module_step(alloc, g, called, port, file, arguments, tags, memo)
            }
        },
    }
}

/// Whether a module's first input is a selector.
pub(crate) fn has_name(called: Module) -> bool
    ensures { result ≡ is_some (module_selector called) }
{
    match called {
        Module::Import => true,
        _ => false,
    }
}

/// What is to be done next for a result of a call of a module.
fn called_step<G: Given>(
    alloc: Global,
    g: &Graph,
    called: Module,
    port: Port,
    arguments: &mut ValueTags,
    written: &Written,
    tags: &mut Tags,
    memo: &mut Memo,
    given: &G,
) -> Result<Step, AllocError>
    requires port { IsPort (graph_of g.now).nodes port }
    requires what { (node_at (graph_of g.now).nodes port.node).what ≡ function.Module called }
    requires formed { AreExact tags.old }
    requires memo { MemoFits (graph_of g.now).nodes tags.old memo.old }
    requires few { length arguments.old ≤ length (node_at (graph_of g.now).nodes port.node).inputs }
    requires earlier { AreArguments tags.old arguments.old }
    ensures formed { AreExact tags.new }
    ensures goes_on { GoesOn tags.old tags.new }
    ensures few { OnOk result (length arguments.new ≤ length (node_at (graph_of g.now).nodes port.node).inputs) }
    ensures earlier { OnOk result (AreArguments tags.new arguments.new) }
    ensures answers { answers_of memo.new ≡ answers_of memo.old }
    ensures memo { OnOk result (MemoFits (graph_of g.now).nodes tags.new memo.new) }
    ensures kept { KeepsSelectors memo.old memo.new }
    ensures fits { IfOk result (λ x. StepFits (graph_of g.now).nodes tags.new (G.told given.now) memo.new port x) }
    ensures memo_right { (s : Sight) → MemoRight s (graph_of g.now).nodes tags.old memo.old → OnOk result (MemoRight s (graph_of g.now).nodes tags.new memo.new) }
    ensures begins { (s : Sight) → MemoRight s (graph_of g.now).nodes tags.old memo.old → Begins (heads_of tags.old) (node_scans s (graph_of g.now).nodes port.node) arguments.old →
        OnOk result (Begins (heads_of tags.new) (node_scans s (graph_of g.now).nodes port.node) arguments.new) }
    ensures right { (s : Sight) → Tells (G.told given.now) tags.new s → Wrote written.now.files s → MemoRight s (graph_of g.now).nodes tags.old memo.old → Begins (heads_of tags.old) (node_scans s (graph_of g.now).nodes port.node) arguments.old →
        IfOk result (λ x. StepRight s (graph_of g.now).nodes tags.new port x) }
    ensures first { OnOk result (Kept (formed_of memo.old) (formed_of memo.new)) }
    ensures memo_found { (l : LinkMap) → MemoFound l tags.old memo.old → AllFound l tags.old (formed_of memo.old) arguments.old → OnOk result (MemoFound l tags.new memo.new) }
    ensures arguments_found { (l : LinkMap) → MemoFound l tags.old memo.old → AllFound l tags.old (formed_of memo.old) arguments.old → OnOk result (AllFound l tags.new (formed_of memo.new) arguments.new) }
    ensures found { (l : LinkMap) → MemoFound l tags.old memo.old → AllFound l tags.old (formed_of memo.old) arguments.old → IfOk result (λ x. StepFound l tags.new (formed_of memo.new) x) }
    ensures forms { (s : Sight) → Tells (G.told given.now) tags.new s → Wrote written.now.files s → MemoRight s (graph_of g.now).nodes tags.old memo.old → Begins (heads_of tags.old) (node_scans s (graph_of g.now).nodes port.node) arguments.old → MemoFormed s (graph_of g.now).nodes tags.old memo.old → HasAll (formings (graph_of g.now).nodes tags.old memo.old) (first_forms (length arguments.old) (node_forms s (graph_of g.now).nodes port.node)) →
        IfOk result (λ x. FormsStep s (graph_of g.now).nodes tags.old memo.old tags.new memo.new port (length arguments.new) x) }
    ensures valued { AreValued (answers_of memo.old) (node_at (graph_of g.now).nodes port.node).inputs (length arguments.old) → OnOk result (AreValued (answers_of memo.old) (node_at (graph_of g.now).nodes port.node).inputs (length arguments.new)) }
    ensures met { (s : Sight) → AreValued (answers_of memo.old) (node_at (graph_of g.now).nodes port.node).inputs (length arguments.old) → IfOk result (λ x. StepMet s (graph_of g.now).nodes (answers_of memo.old) port x) }
    ensures selected { SelectorsValued (graph_of g.now).nodes memo.old → OnOk result (SelectorsValued (graph_of g.now).nodes memo.new) }
{
    if has_name(called) {
        import_step(
            alloc, g, called, port, arguments, written, tags, memo, given,
        )
    } else {
        module_step(alloc, g, called, port, None, arguments, tags, memo)
    }
}

/// The result of an effect.
fn effect_step(
    g: &Graph,
    e: Effect,
    port: Port,
    tags: &mut Tags,
    memo: &Memo,
) -> Result<Step, AllocError>
    requires port { IsPort (graph_of g.now).nodes port }
    requires what { (node_at (graph_of g.now).nodes port.node).what ≡ function.Effect e }
    requires formed { AreExact tags.old }
    requires memo { MemoFits (graph_of g.now).nodes tags.old memo.now }
    ensures formed { AreExact tags.new }
    ensures goes_on { GoesOn tags.old tags.new }
    ensures fits { (given : ValueTag → Option Value) → IfOk result (λ x. StepFits (graph_of g.now).nodes tags.new given memo.now port x) }
    ensures right { (s : Sight) → MemoRight s (graph_of g.now).nodes tags.old memo.now → IfOk result (λ x. StepRight s (graph_of g.now).nodes tags.new port x) }
    ensures found { (l : LinkMap) → MemoFound l tags.old memo.now → IfOk result (λ x. StepFound l tags.new (formed_of memo.now) x) }
    ensures forms { (s : Sight) → MemoFormed s (graph_of g.now).nodes tags.old memo.now → IfOk result (λ x. FormsStep s (graph_of g.now).nodes tags.old memo.now tags.new memo.now port 0 x) }
    ensures met { (s : Sight) → IfOk result (λ x. StepMet s (graph_of g.now).nodes (answers_of memo.now) port x) }
{
    match e {
        Effect::SetLocal => chosen(g, port, 1, tags, memo),
        Effect::SetGlobal => chosen(g, port, 1, tags, memo),
        Effect::Print | Effect::Echo | Effect::Export => {
            let t = constant_tag(tags, Const::Null)?;
            Ok(Step::Settles(Answer {
                settled: Settled::Value(t),
                input: None,
            }))
        }
    }
}

/// What is to be done next for a port.
pub(crate) fn next_step<G: Given>(
    alloc: Global,
    g: &Graph,
    port: Port,
    arguments: &mut ValueTags,
    links: &Links,
    written: &Written,
    tags: &mut Tags,
    memo: &mut Memo,
    given: &G,
) -> Result<Step, AllocError>
    requires port { IsPort (graph_of g.now).nodes port }
    requires formed { AreExact tags.old }
    requires memo { MemoFits (graph_of g.now).nodes tags.old memo.old }
    requires links { LinksFit tags.old links.now.links }
    requires few { length arguments.old ≤ length (node_at (graph_of g.now).nodes port.node).inputs }
    requires earlier { AreArguments tags.old arguments.old }
    ensures formed { AreExact tags.new }
    ensures goes_on { GoesOn tags.old tags.new }
    ensures few { OnOk result (length arguments.new ≤ length (node_at (graph_of g.now).nodes port.node).inputs) }
    ensures earlier { OnOk result (AreArguments tags.new arguments.new) }
    ensures answers { answers_of memo.new ≡ answers_of memo.old }
    ensures memo { OnOk result (MemoFits (graph_of g.now).nodes tags.new memo.new) }
    ensures kept { KeepsSelectors memo.old memo.new }
    ensures fits { IfOk result (λ x. StepFits (graph_of g.now).nodes tags.new (G.told given.now) memo.new port x) }
    ensures memo_right { (s : Sight) → MemoRight s (graph_of g.now).nodes tags.old memo.old → OnOk result (MemoRight s (graph_of g.now).nodes tags.new memo.new) }
    ensures begins { (s : Sight) → MemoRight s (graph_of g.now).nodes tags.old memo.old → Begins (heads_of tags.old) (node_scans s (graph_of g.now).nodes port.node) arguments.old →
        OnOk result (Begins (heads_of tags.new) (node_scans s (graph_of g.now).nodes port.node) arguments.new) }
    ensures right { (s : Sight) → Sees (G.told given.now) links.now.links written.now.files tags.new s → MemoRight s (graph_of g.now).nodes tags.old memo.old → Begins (heads_of tags.old) (node_scans s (graph_of g.now).nodes port.node) arguments.old →
        IfOk result (λ x. StepRight s (graph_of g.now).nodes tags.new port x) }
    ensures first { OnOk result (Kept (formed_of memo.old) (formed_of memo.new)) }
    ensures memo_found { MemoFound links.now.links tags.old memo.old → AllFound links.now.links tags.old (formed_of memo.old) arguments.old → OnOk result (MemoFound links.now.links tags.new memo.new) }
    ensures arguments_found { MemoFound links.now.links tags.old memo.old → AllFound links.now.links tags.old (formed_of memo.old) arguments.old → OnOk result (AllFound links.now.links tags.new (formed_of memo.new) arguments.new) }
    ensures found { MemoFound links.now.links tags.old memo.old → AllFound links.now.links tags.old (formed_of memo.old) arguments.old → IfOk result (λ x. StepFound links.now.links tags.new (formed_of memo.new) x) }
    ensures forms { (s : Sight) → Sees (G.told given.now) links.now.links written.now.files tags.new s → MemoRight s (graph_of g.now).nodes tags.old memo.old → Begins (heads_of tags.old) (node_scans s (graph_of g.now).nodes port.node) arguments.old → MemoFormed s (graph_of g.now).nodes tags.old memo.old → HasAll (formings (graph_of g.now).nodes tags.old memo.old) (first_forms (length arguments.old) (node_forms s (graph_of g.now).nodes port.node)) →
        IfOk result (λ x. FormsStep s (graph_of g.now).nodes tags.old memo.old tags.new memo.new port (length arguments.new) x) }
    ensures valued { AreValued (answers_of memo.old) (node_at (graph_of g.now).nodes port.node).inputs (length arguments.old) → OnOk result (AreValued (answers_of memo.old) (node_at (graph_of g.now).nodes port.node).inputs (length arguments.new)) }
    ensures met { (s : Sight) → Sees (G.told given.now) links.now.links written.now.files tags.new s → MemoRight s (graph_of g.now).nodes tags.old memo.old → AreValued (answers_of memo.old) (node_at (graph_of g.now).nodes port.node).inputs (length arguments.old) → IfOk result (λ x. StepMet s (graph_of g.now).nodes (answers_of memo.old) port x) }
    ensures selected { SelectorsValued (graph_of g.now).nodes memo.old → OnOk result (SelectorsValued (graph_of g.now).nodes memo.new) }
{
    match g.node(port.node).what {
        Function::Module(called) => {
            called_step(
                alloc, g, called, port, arguments, written, tags, memo, given,
            )
        }
        Function::Effect(e) => effect_step(g, e, port, tags, memo),
        Function::Switch | Function::Route => {
            selector_step(alloc, g, port, 0, links, tags, memo, given)
        }
        Function::GetLocal | Function::GetGlobal => {
            selector_step(alloc, g, port, 1, links, tags, memo, given)
        }
    }
}
