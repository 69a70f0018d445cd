//! Chains of slot numbers: any number of chains run over one vector of links.

ghost use Rattle.std.specs.Prelude.{◌≡◌, ◌<◌, ℕ, Option, Some, None, IfSome, vec_len, vec_capacity, slice_get};
ghost use Rattle.std.specs.Prelude.{List, ◌∷◌, ◌++◌, [], length};
ghost use Rattle.dx_cache.specs.Chain.{IsChain, AreApart, IsOut, along, next_in};
ghost use Rattle.dx_cache.specs.Changed.{set_after, set_before, attached, attached_ends, detached, detached_ends};

/// The neighbours of a slot in its chain.
#[derive(Clone, Copy)]
pub struct Link {
    pub before: Option<usize>,
    pub after: Option<usize>,
}

/// The first and the last slot of a chain.
#[derive(Clone, Copy)]
pub struct Ends {
    pub first: Option<usize>,
    pub last: Option<usize>,
}

/// A link to no neighbours.
pub fn alone() -> Link
    ensures { result ≡ record { before = None; after = None } }
{
    Link {
        before: None,
        after: None,
    }
}

/// The ends of an empty chain.
pub fn no_ends() -> Ends
    ensures { result ≡ record { first = None; last = None } }
{
    Ends {
        first: None,
        last: None,
    }
}

/// Puts a slot behind the last of a chain.
pub fn attach(links: &mut Vec<Link>, ends: &mut Ends, i: usize)
    requires within { i < vec_len links.old }
    requires last { IfSome ends.old.last (λ l. l < vec_len links.old) }
    ensures links { links.new.items ≡ attached links.old.items ends.old.last i }
    ensures ends { ends.new ≡ attached_ends ends.old i }
    ensures len { vec_len links.new ≡ vec_len links.old }
    ensures capacity { vec_capacity links.new ≡ vec_capacity links.old }
{
    links[i] = Link {
        before: ends.last,
        after: None,
    };
    match ends.last {
        None => ends.first = Some(i),
        Some(l) => follow(links, l, Some(i)),
    }
    ends.last = Some(i);
}

/// Takes the slot with this link out of a chain.
pub fn detach(links: &mut Vec<Link>, ends: &mut Ends, link: Link)
    requires before { IfSome link.before (λ b. b < vec_len links.old) }
    requires after { IfSome link.after (λ a. a < vec_len links.old) }
    ensures links { links.new.items ≡ detached links.old.items link }
    ensures ends { ends.new ≡ detached_ends ends.old link }
    ensures len { vec_len links.new ≡ vec_len links.old }
    ensures capacity { vec_capacity links.new ≡ vec_capacity links.old }
{
    match link.before {
        None => ends.first = link.after,
        Some(b) => follow(links, b, link.after),
    }
    match link.after {
        None => ends.last = link.before,
        Some(a) => precede(links, a, link.before),
    }
}

/// Takes a slot out of a chain that it stands in. Other chains stay as they are.
pub fn take_out(links: &mut Vec<Link>, ends: &mut Ends, i: usize)
    requires chain { (xs ys : List ℕ) × IsChain links.old.items ends.old (xs ++ i ∷ ys) × AreApart (xs ++ i ∷ ys) }
    ensures chain { (xs ys : List ℕ) → IsChain links.old.items ends.old (xs ++ i ∷ ys) → AreApart (xs ++ i ∷ ys) → IsChain links.new.items ends.new (xs ++ ys) }
    ensures others { (xs ys : List ℕ) (j : ℕ) → IsChain links.old.items ends.old (xs ++ i ∷ ys) → AreApart (xs ++ i ∷ ys) → IsOut j (xs ++ i ∷ ys) → slice_get links.new.items j ≡ slice_get links.old.items j }
    ensures len { length links.new.items ≡ length links.old.items }
{
    let link = links[i];
    detach(links, ends, link);
}

/// Puts a slot that stands in no chain behind the last of a chain. Other chains stay as they are.
pub fn put_last(links: &mut Vec<Link>, ends: &mut Ends, i: usize)
    requires within { i < length links.old.items }
    requires chain { (xs : List ℕ) × IsChain links.old.items ends.old xs }
    ensures chain { (xs : List ℕ) → IsChain links.old.items ends.old xs → AreApart xs → IsOut i xs → IsChain links.new.items ends.new (xs ++ i ∷ []) }
    ensures others { (xs : List ℕ) (j : ℕ) → IsChain links.old.items ends.old xs → ¬ (j ≡ i) → IsOut j xs → slice_get links.new.items j ≡ slice_get links.old.items j }
    ensures len { length links.new.items ≡ length links.old.items }
{
    attach(links, ends, i);
}

// The slot that so many steps from one lead to, and none where the chain ends before.
pub fn after_steps(links: &[Link], first: Option<usize>, steps: u64) -> Option<usize>
    ensures { result ≡ along links.now steps first }
{
    let mut slot = first;
    for _ in 0..steps {
        slot = after(links, slot);
    }
    slot
}

// The slot behind another.
fn after(links: &[Link], slot: Option<usize>) -> Option<usize>
    ensures { result ≡ next_in links.now slot }
{
    match slot {
        None => None,
        Some(i) => match links.get(i) {
            None => None,
            Some(link) => link.after,
        },
    }
}

// Sets what comes after a slot.
fn follow(links: &mut Vec<Link>, i: usize, after: Option<usize>)
    requires { i < vec_len links.old }
    ensures links { links.new.items ≡ set_after links.old.items i after }
    ensures len { vec_len links.new ≡ vec_len links.old }
    ensures capacity { vec_capacity links.new ≡ vec_capacity links.old }
{
    links[i] = Link {
        before: links[i].before,
        after,
    };
}

// Sets what comes before a slot.
fn precede(links: &mut Vec<Link>, i: usize, before: Option<usize>)
    requires { i < vec_len links.old }
    ensures links { links.new.items ≡ set_before links.old.items i before }
    ensures len { vec_len links.new ≡ vec_len links.old }
    ensures capacity { vec_capacity links.new ≡ vec_capacity links.old }
{
    links[i] = Link {
        before,
        after: links[i].after,
    };
}
