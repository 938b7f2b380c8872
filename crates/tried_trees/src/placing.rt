//! Two free programs next to one another, as early and as late as the order allows.

ghost use Rattle.std.specs.Prelude.{◌≡◌, ◌<◌, ◌++◌, ◌∷◌, [], length, if◌then◌else◌, IfOk, OnOk};
ghost use Rattle.std.specs.List.{AllByRecursion};
ghost use Rattle.fs_semantics.specs.Orders.{IsLinearExtension, IsFree};
ghost use Rattle.fs_replay.specs.Exchanged.{one_way, other_way};
ghost use Rattle.orders.specs.Relation.{comes, Comes};
ghost use Rattle.tried_trees.specs.Placing.{near, aside, those, IsPlaced};

use fs_replay::Exchange;
use orders::Order;
use rh_base::{NoMemory, Seq};
use std::alloc::Global;

/// Where two programs are put: next to one another, as early or as late as the order allows.
#[derive(Clone, Copy, Debug, PartialEq, Eq)]
pub enum Place {
    Early,
    Late,
}

/// Two orders, the second of which is the first with two neighbours exchanged.
#[derive(Drop)]
pub(crate) struct Swap {
    pub(crate) left: Seq<u32>,
    pub(crate) right: Seq<u32>,
}

/// An order without two of its programs, in two parts: those that have to stand on one side of the two, and all others.
#[derive(Drop)]
struct Parts {
    near: Seq<u32>,
    others: Seq<u32>,
}

#[tactic(auto, using(crate::proofs::PlaceLaws::told_by))]
fn comes(order: &Order, a: u32, b: u32) -> bool
    requires a { a < order.now.count }
    requires b { b < order.now.count }
    ensures { result ≡ comes order.now a b }
{
    order.before(a, b)
}

/// Whether the program comes before one of the two, or after one of them.
fn is_near(place: Place, order: &Order, a: u32, b: u32, k: u32) -> bool
    requires a { a < order.now.count }
    requires b { b < order.now.count }
    requires k { k < order.now.count }
    ensures { result ≡ near place order.now a b k }
{
    match place {
        Place::Early => {
            let first = comes(order, k, a);
            let second = comes(order, k, b);
            first || second
        }
        Place::Late => {
            let first = comes(order, a, k);
            let second = comes(order, b, k);
            first || second
        }
    }
}

fn push_if(list: &mut Seq<u32>, told: bool, k: u32) -> Result<(), NoMemory>
    ensures { OnOk result (list.new ≡ list.old ++ (if told then k ∷ [] else [])) }
{
    if told {
        return list.push(k);
    }
    Ok(())
}

/// The others of an order, in two parts.
fn parted(
    alloc: Global,
    place: Place,
    order: &Order,
    list: &[u32],
    a: u32,
    b: u32,
) -> Result<Parts, NoMemory>
    requires list { AllByRecursion (λ k. k < order.now.count) list.now }
    requires a { a < order.now.count }
    requires b { b < order.now.count }
    ensures near { IfOk result (λ parts. parts.near ≡ those (near place order.now a b) list.now) }
    ensures others { IfOk result (λ parts. parts.others ≡ those (aside place order.now a b) list.now) }
{
    let mut near = Seq::new(alloc);
    let mut others = Seq::new(alloc);
    for k in list {
        let is_near = is_near(place, order, a, b, *k);
        let is_aside = a != *k && b != *k && !is_near;
        push_if(&mut near, is_near, *k)?;
        push_if(&mut others, is_aside, *k)?;
    }
    Ok(Parts { near, others })
}

fn push_all(list: &mut Seq<u32>, more: &[u32]) -> Result<(), NoMemory>
    ensures { OnOk result (list.new ≡ list.old ++ more.now) }
{
    for k in more {
        list.push(*k)?;
    }
    Ok(())
}

/// Two programs between others.
fn between(
    alloc: Global,
    front: &Seq<u32>,
    a: u32,
    b: u32,
    back: &Seq<u32>,
) -> Result<Seq<u32>, NoMemory>
    ensures { IfOk result (λ list. list ≡ front.now ++ a ∷ b ∷ back.now) }
{
    let mut list = Seq::new(alloc);
    push_all(&mut list, front.as_slice())?;
    list.push(a)?;
    list.push(b)?;
    push_all(&mut list, back.as_slice())?;
    Ok(list)
}

/// Both orders of an exchange.
pub(crate) fn swapped(alloc: Global, exchange: &Exchange) -> Result<Swap, NoMemory>
    ensures left { IfOk result (λ swap. swap.left ≡ one_way exchange.now) }
    ensures right { IfOk result (λ swap. swap.right ≡ other_way exchange.now) }
{
    let (front, back) = (&exchange.front, &exchange.back);
    let left = between(alloc, front, exchange.first, exchange.second, back)?;
    let right = between(alloc, front, exchange.second, exchange.first, back)?;
    Ok(Swap { left, right })
}

/// Two free programs next to one another, as early or as late as the order allows.
pub(crate) fn placed(
    alloc: Global,
    place: Place,
    order: &Order,
    list: &[u32],
    a: u32,
    b: u32,
) -> Result<Exchange, NoMemory>
    requires list { IsLinearExtension order.now.count (Comes order.now) list.now }
    requires a { a < order.now.count }
    requires b { b < order.now.count }
    requires free { IsFree (Comes order.now) a b }
    ensures { IfOk result (λ x. IsPlaced place order.now a b (one_way x) (other_way x)) }
{
    order.count();
    let Parts { near, others } = parted(alloc, place, order, list, a, b)?;
    match place {
        Place::Early => Ok(Exchange {
            front: near,
            first: a,
            second: b,
            back: others,
        }),
        Place::Late => Ok(Exchange {
            front: others,
            first: a,
            second: b,
            back: near,
        }),
    }
}
