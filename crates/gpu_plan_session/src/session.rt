//! The resources of a plan, which are bound to numbers of the caller's.

ghost use Rattle.std.specs.Prelude.{◌≡◌, ◌↔◌, ◌∷◌, ◌++◌, [], IsTrue, OnOk, OnErr};
ghost use Rattle.gpu_plan_session.specs.PlanSession.{AreKeys, IsAllowed, refusal_of};

use crate::place::solved;
use crate::{Reply, Solved};
use gpu_block_session::ErrorNumber;
use gpu_plan::{PlanError, Resource};
use std::alloc::{AllocError, Global};
use std::collections::BTreeSet;
use std::marker::Model;

/// A resource under the caller's number.
#[derive(Drop)]
pub struct Listed {
    /// The caller's number.
    pub key: u64,
    /// The caller's name.
    pub name: String,
    /// What is placed.
    pub resource: Resource,
}

/// The resources of a plan, in the order in which they were added.
#[derive(Drop)]
pub struct PlanSession {
    page: u64,
    listed: Vec<Listed>,
    keys: BTreeSet<u64>,
}

impl Model for PlanSession {
    ghost use Rattle.gpu_plan_session.specs.PlanSession.{State, IsSound, AreKeys};

    ghost Value = { State };

    ghost view = { λ s. record { page = s.page; listed = s.listed.items } };

    ghost invariant = { λ s. IsSound (record { page = s.page; listed = s.listed.items })
        × AreKeys s.listed.items s.keys };
}

/// Whether a resource may be planned.
fn is_allowed(resource: &Resource) -> bool
    ensures { IsTrue result ↔ IsAllowed resource.now }
{
    0 < resource.size && resource.alignment.is_power_of_two() && resource.first <= resource.last
}

/// Adds a resource, and its number. Room is made first: where it is refused, nothing has changed.
fn list(listed: &mut Vec<Listed>, keys: &mut BTreeSet<u64>, one: Listed) -> Result<(), AllocError>
    requires keys { AreKeys listed.old.items keys.old }
    ensures keys { AreKeys listed.new.items keys.new }
    ensures added { OnOk result (listed.new.items ≡ listed.old.items ++ one ∷ []) }
    ensures unchanged { OnErr result (listed.new.items ≡ listed.old.items) }
{
    listed.try_reserve(1)?;
    keys.insert(one.key)?;
    listed.push_reserved(one);
    Ok(())
}

/// The number of a plan's error: E1 where no heap of 64 bits holds the plan, E10 where the host refused memory.
fn number_of(error: PlanError) -> ErrorNumber
    ensures { result ≡ refusal_of error }
{
    match error {
        PlanError::TooLarge => ErrorNumber::E1,
        PlanError::HostOutOfMemory => ErrorNumber::E10,
    }
}

impl PlanSession {
    ghost use Rattle.std.specs.Prelude.{◌≡◌, IsTrue};
    ghost use Rattle.std.specs.Int.{is_power_of_two};
    ghost use Rattle.gpu_plan_session.specs.PlanSession.{no_resources, Adding, Solving};

    /// A plan of no resources, with pages of so many bytes.
    pub fn new(alloc: Global, page: u64) -> PlanSession
        requires paged { IsTrue (is_power_of_two page) }
        ensures empty { result ≡ no_resources page }
    {
        PlanSession {
            page,
            listed: Vec::new(alloc),
            keys: BTreeSet::new(alloc),
        }
    }

    /// Adds a resource under the caller's number. What it refuses changes nothing.
    pub fn add(&mut self, key: u64, resource: Resource, name: String) -> Reply
        ensures { Adding self.old (record { key = key; name = name; resource = resource }) result
            self.new }
    {
        if self.keys.contains(&key) {
            return Reply::Busy;
        }
        if !is_allowed(&resource) {
            return Reply::Refused(ErrorNumber::E4);
        }
        let one = Listed {
            key,
            name,
            resource,
        };
        match list(&mut self.listed, &mut self.keys, one) {
            Ok(()) => Reply::Done,
            Err(_) => Reply::Refused(ErrorNumber::E10),
        }
    }

    /// The resources, in the order in which they were added.
    pub fn listed(&self) -> &[Listed]
        ensures { result.now ≡ self.now.listed }
    {
        &self.listed
    }

    /// Places all resources by the best plan.
    pub fn solve(&self, alloc: Global) -> Reply
        ensures { Solving self.now result }
    {
        match solved(alloc, &self.listed, self.page) {
            Ok(solved) => Reply::Solved(solved),
            Err(error) => Reply::Refused(number_of(error)),
        }
    }
}
