//! What a follower knows of a value that its owner changes under another lock: as it was when both were last reconciled.
ghost use Rattle.std.specs.Prelude.{◌≡◌, Some};

use crate::parts::{Fragment, SharedWhole, UnnamedWhole, Whole};
use crate::view::{Agreement, PartsName};
use std::alloc::{AllocError, Global};
use std::marker::{Brand, Model, PhantomData};
use std::snapshot::Snapshot;

/// `since reconciled now`: what holds of a value at any time after a follower saw it.
pub trait Since<E> {
    ghost since: { E → E → Type 0 };
}

/// What the one follower saw and the present value satisfy `since`.
pub struct Reconciled<P> {
    of: PhantomData<P>,
}

impl<E, P: Since<E>> Agreement<E, E> for Reconciled<P> {
    ghost agrees = { λ now reconciled. P.since reconciled now };

    ghost apart = { λ a b. ⊥ };
}

/// Where owner and follower of the value named by J take their steps; shared by reference.
#[derive(Drop)]
pub struct Reconciler<J: PartsName, E, P: Since<E>> {
    parts: SharedWhole<J, E, E, Reconciled<P>>,
}

/// The owner's side. Contracts see the present value.
pub type Owner<J, E> = Whole<J, E, E>;

/// The follower's side. Contracts see the value as it was when both were last reconciled.
#[derive(Drop)]
pub struct Follower<J: PartsName, E> {
    part: Fragment<J, E, E>,
    reconciled: Snapshot<E>,
}

impl<J: PartsName, E> Model for Follower<J, E> {
    ghost use Rattle.std.specs.Prelude.{◌≡◌, Some};

    ghost Value = { E };

    ghost view = { λ f. f.reconciled.value };

    ghost invariant = { λ f. f.part ≡ Some f.reconciled.value };
}

/// A reconciler without a name or a value. Contracts see the name of its word, which becomes its name.
#[derive(Drop)]
pub struct UnnamedReconciler<E, P: Since<E>> {
    parts: UnnamedWhole<E, E, Reconciled<P>>,
}

impl<E, P: Since<E>> Model for UnnamedReconciler<E, P> {
    ghost use Rattle.atomic_table.specs.Seated.{TableId};

    ghost Value = { TableId };

    ghost view = { λ m. m.parts };
}

impl<E, P: Since<E>> UnnamedReconciler<E, P> {
    /// A reconciler without a value. It takes memory for its word; no step takes any.
    ///
    /// # Errors
    ///
    /// `AllocError` if memory runs out.
    pub fn new(alloc: Global) -> Result<UnnamedReconciler<E, P>, AllocError> {
        Ok(UnnamedReconciler {
            parts: UnnamedWhole::new(alloc)?,
        })
    }

    /// The reconciler named J with its first value, which the follower has seen, and its owner. The caller shows that J is its name (the call
    /// that brings in J picks it so), and that `since` holds of an unchanged value.
    pub fn named<J: PartsName>(
        self,
        value: &E,
    ) -> (Reconciler<J, E, P>, Follower<J, E>, Owner<J, E>)
        requires name { self ≡ J.parts }
        requires holds { P.since value.now value.now }
        ensures follower { result.1 ≡ value.now }
        ensures owner { result.2 ≡ value.now }
    {
        let (parts, owner, part) = self.parts.named_with_part::<J, Brand>(value);
        (
            Reconciler { parts },
            Follower {
                part,
                reconciled: Snapshot::of(value),
            },
            owner,
        )
    }
}

impl<J: PartsName, E, P: Since<E>> Reconciler<J, E, P> {
    /// Changes the owner's value without the follower. The caller shows that `since` then still holds of all that was seen.
    pub fn go_on(&self, owner: &mut Owner<J, E>, now: &E)
        requires { (reconciled : E) → P.since reconciled owner.old → P.since reconciled now.now }
        ensures { owner.new ≡ now.now }
    {
        self.parts.go_on(owner, now);
    }

    /// Reconciles both: `since` holds of the value that the follower saw and the owner's. Then the owner's value becomes `now`, and the
    /// follower has seen it. `since` must hold of `now` unchanged.
    pub fn reconcile(&self, follower: &mut Follower<J, E>, owner: &mut Owner<J, E>, now: &E)
        requires { P.since now.now now.now }
        ensures since { P.since follower.old owner.old }
        ensures follower { follower.new ≡ now.now }
        ensures owner { owner.new ≡ now.now }
    {
        self.parts.step::<Brand>(owner, &mut follower.part, now);
        follower.reconciled = Snapshot::of(now);
    }
}
