//! Who wants each pair of pattern and queue, and with how much weight.
ghost use Rattle.std.specs.Prelude.{◌≡◌, ℕ, false, ◌<◌, Some, None, OnOk, OnErr, IfOk};
ghost use Rattle.told_pairs.specs.declared.pair.Pair.{Pair as Key};
ghost use Rattle.told_pairs.specs.Keys.{same_key};
ghost use Rattle.told_pairs.specs.Wants.{Alters, Becomes, HasShare, HasWeight, IsTidied, Shares as SharesBecome, weight_of, total_of, to_tell, raised, lowered, reweighed, holding, share_at, weight_told};

use crate::pair::{Pair, copied};
use interest_list::Holder;
use nats_text::{Bytes, NoMemory};
use std::alloc::Global;
use std::collections::BTreeMap;
use std::marker::Model;

/// The greatest weight of a group that is told.
const MAX_WEIGHT: u64 = 65_536;

/// Who wants a pair: the weight of all together, and that of each link.
#[derive(Drop)]
pub struct Want {
    total: u64,
    shares: Shares,
}

/// The weights of links, by their numbers.
type Shares = BTreeMap<u64, u64>;

impl Model for Want {
    ghost use Rattle.told_pairs.specs.Wants.{Weight};

    ghost Value = { Weight };

    ghost view = { λ w. record { total = w.total; shares = w.shares.entries } };
}

/// Who wants each pair.
pub type Wants = BTreeMap<Pair, Want>;

/// The link that holds a subscription.
pub fn holding(holder: &Holder) -> Option<u64>
    ensures { result ≡ holding holder.now }
{
    match holder {
        Holder::Link { conn } => Some(*conn),
        Holder::Client { .. } | Holder::Inner => None,
    }
}

/// The weight of the pair that a link is to be told: that of the others, and 0 where no other wants it.
pub fn to_tell(wants: &Wants, pair: &Pair, link: u64) -> u32
    ensures { result ≡ to_tell link pair.now wants.now.entries }
{
    match wants.get(pair) {
        Some(want) => weight_told(
            &pair.queue,
            want.total.saturating_sub(share(&want.shares, link)),
        ),
        None => weight_told(&pair.queue, 0),
    }
}

/// A weight as it is told.
pub fn weight_told(queue: &Option<Bytes>, weight: u64) -> u32
    ensures { result ≡ weight_told queue.now weight }
{
    let most = if queue.is_some() { MAX_WEIGHT } else { 1 };
    weight.min(most) as u32
}

/// A link's own share.
fn share(shares: &Shares, link: u64) -> u64
    ensures { result ≡ share_at link shares.now.entries }
{
    match shares.get(&link) {
        Some(share) => *share,
        None => 0,
    }
}

/// More weight wants the pair. Without memory all stays as it was.
pub fn raise(
    alloc: Global,
    wants: &mut Wants,
    pair: &Pair,
    link: Option<u64>,
    weight: u32,
) -> Result<(), NoMemory>
    ensures ok { OnOk result (Becomes pair.now link (raised weight) wants.old.entries wants.new.entries) }
    ensures err { OnErr result (wants.new.entries ≡ wants.old.entries) }
{
    match wants.get_mut(pair) {
        Some(want) => raise_want(want, link, weight),
        None => add_want(alloc, wants, pair, link, weight),
    }
}

fn add_want(
    alloc: Global,
    wants: &mut Wants,
    pair: &Pair,
    link: Option<u64>,
    weight: u32,
) -> Result<(), NoMemory>
    requires { weight_of pair.now wants.old.entries ≡ None }
    ensures ok { OnOk result (Becomes pair.now link (raised weight) wants.old.entries wants.new.entries) }
    ensures err { OnErr result (wants.new.entries ≡ wants.old.entries) }
{
    let key = copied(pair)?;
    let want = first_want(alloc, link, weight)?;
    wants.insert(key, want)?;
    Ok(())
}

fn first_want(alloc: Global, link: Option<u64>, weight: u32) -> Result<Want, NoMemory>
    ensures { IfOk result (λ it. Alters link (raised weight) None it) }
{
    let mut want = Want {
        total: 0,
        shares: BTreeMap::new(alloc),
    };
    raise_want(&mut want, link, weight)?;
    Ok(want)
}

fn raise_want(want: &mut Want, link: Option<u64>, weight: u32) -> Result<(), NoMemory>
    ensures ok { OnOk result (Alters link (raised weight) (Some want.old) want.new) }
    ensures err { OnErr result (want.new ≡ want.old) }
{
    if let Some(link) = link {
        raise_share(&mut want.shares, link, weight)?;
    }
    want.total = want.total.saturating_add(weight as u64);
    Ok(())
}

fn raise_share(shares: &mut Shares, link: u64, weight: u32) -> Result<(), NoMemory>
    ensures ok { OnOk result (SharesBecome link (raised weight) shares.old.entries shares.new.entries) }
    ensures err { OnErr result (shares.new.entries ≡ shares.old.entries) }
{
    let more = share(shares, link).saturating_add(weight as u64);
    shares.insert(link, more)?;
    Ok(())
}

/// Less weight wants the pair.
pub fn lower(wants: &mut Wants, pair: &Pair, link: Option<u64>, weight: u32)
    ensures { Becomes pair.now link (lowered weight) wants.old.entries wants.new.entries }
{
    if let Some(want) = wants.get_mut(pair) {
        lower_want(want, link, weight);
    }
}

fn lower_want(want: &mut Want, link: Option<u64>, weight: u32)
    ensures { Alters link (lowered weight) (Some want.old) want.new }
{
    if let Some(link) = link {
        lower_share(&mut want.shares, link, weight);
    }
    want.total = want.total.saturating_sub(weight as u64);
}

fn lower_share(shares: &mut Shares, link: u64, weight: u32)
    ensures { SharesBecome link (lowered weight) shares.old.entries shares.new.entries }
{
    let left = share(shares, link).saturating_sub(weight as u64);
    if left == 0 {
        shares.remove(&link);
    } else {
        set_share(shares, link, left);
    }
}

/// A link that has a share has another one.
fn set_share(shares: &mut Shares, link: u64, weight: u64)
    ensures { 0 < share_at link shares.old.entries → SharesBecome link (λ _. weight) shares.old.entries shares.new.entries }
{
    if let Some(share) = shares.get_mut(&link) {
        *share = weight;
    }
}

/// A weight is another one now.
pub fn reweigh(wants: &mut Wants, pair: &Pair, link: Option<u64>, before: u32, weight: u32)
    ensures becomes { HasWeight pair.now link wants.old.entries → Becomes pair.now link (reweighed before weight) wants.old.entries wants.new.entries }
    ensures others { (l : ℕ) (p : Key) → same_key pair.now p ≡ false → to_tell l p wants.new.entries ≡ to_tell l p wants.old.entries }
{
    if let Some(want) = wants.get_mut(pair) {
        reweigh_want(want, link, before, weight);
    }
}

fn reweigh_want(want: &mut Want, link: Option<u64>, before: u32, weight: u32)
    ensures { HasShare link want.old → Alters link (reweighed before weight) (Some want.old) want.new }
{
    if let Some(link) = link {
        let now = reweighed(share(&want.shares, link), before, weight);
        set_share(&mut want.shares, link, now);
    }
    want.total = reweighed(want.total, before, weight);
}

fn reweighed(total: u64, before: u32, weight: u32) -> u64
    ensures { result ≡ reweighed before weight total }
{
    total
        .saturating_sub(before as u64)
        .saturating_add(weight as u64)
}

/// Lets a pair go that nobody wants.
pub fn tidy(wants: &mut Wants, pair: &Pair)
    ensures { IsTidied wants.old.entries wants.new.entries }
{
    if total(wants, pair) == 0 {
        wants.remove(pair);
    }
}

fn total(wants: &Wants, pair: &Pair) -> u64
    ensures { result ≡ total_of pair.now wants.now.entries }
{
    match wants.get(pair) {
        Some(want) => want.total,
        None => 0,
    }
}
