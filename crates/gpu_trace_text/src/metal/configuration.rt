//! The configuration of a Metal trace.

ghost use Rattle.std.specs.Prelude.{◌≡◌, [], IfOk, OnErr, Some, None, true, false};
ghost use Rattle.std.specs.FinMap.{empty};
ghost use Rattle.gpu_sim_metal.specs.Scripted.{told};
ghost use Rattle.gpu_sim_metal.specs.Simulation.{held_of, plan_of, history_of, refused_of};
ghost use Rattle.gpu_trace_text.specs.MetalConfiguration.{nothing_configured, configured_by, plan_by, sizes_by, makes_sets, wants_set};

use crate::device::setting;
use crate::device::setting::sizes_of;
use crate::metal::setting::Setting;
use gpu_sim_base::Refusal;
use gpu_sim_metal::SimMetal;
use gpu_values::AllocationSizes;
use std::alloc::{AllocError, Global};
use std::marker::Model;

/// The simulated device, the block sizes and the wish for a residency set that the configuration lines describe.
#[derive(Drop)]
pub struct Configuration {
    sets: Option<bool>,
    residency: Option<bool>,
    sizes: Option<AllocationSizes>,
    refusals: Vec<(u64, Refusal)>,
}

impl Model for Configuration {
    ghost use Rattle.gpu_trace_text.specs.MetalConfiguration.{Configured};

    ghost Value = { Configured };

    ghost view = { λ c. record {
      sets = c.sets;
      residency = c.residency;
      sizes = c.sizes;
      refusals =
          c.refusals.items;
    } };
}

impl Configuration {
    /// Nothing is configured.
    pub fn new(alloc: Global) -> Configuration
        ensures { result ≡ nothing_configured }
    {
        Configuration {
            sets: None,
            residency: None,
            sizes: None,
            refusals: Vec::new(alloc),
        }
    }

    /// Sets what a line says. Answers whether it could: all but refusals are set once. Want of memory changes nothing.
    pub fn set(&mut self, setting: &Setting) -> Result<bool, AllocError>
        ensures set { IfOk result (λ set. set ≡ true
            → configured_by self.old setting.now ≡ Some self.new) }
        ensures not_set { IfOk result (λ set. set ≡ false
            → (configured_by self.old setting.now ≡ None) × (self.new ≡ self.old)) }
        ensures refused { OnErr result (self.new ≡ self.old) }
    {
        match *setting {
            Setting::Sets(yes) => match self.sets {
                Some(_) => return Ok(false),
                None => self.sets = Some(yes),
            },
            Setting::Residency(yes) => match self.residency {
                Some(_) => return Ok(false),
                None => self.residency = Some(yes),
            },
            Setting::Shared(
                setting::Setting::Sizes {
                    device,
                    host,
                    max_device,
                    max_host,
                },
            ) => match self.sizes {
                Some(_) => return Ok(false),
                None => self.sizes = Some(sizes_of(device, host, max_device, max_host)),
            },
            Setting::Shared(setting::Setting::Refuse { question, refusal }) => {
                self.refusals.push((question, refusal))?
            }
            Setting::Shared(_) => return Ok(false),
        }
        Ok(true)
    }

    /// The sizes of blocks.
    pub fn sizes(&self) -> AllocationSizes
        ensures { result ≡ sizes_by self.now }
    {
        match self.sizes {
            Some(sizes) => sizes,
            None => AllocationSizes::default(),
        }
    }

    /// Whether a residency set is asked for.
    pub fn wants_set(&self) -> bool
        ensures { result ≡ wants_set self.now }
    {
        self.residency.unwrap_or(false)
    }

    /// The device.
    pub fn device(self, alloc: Global) -> SimMetal
        ensures plan { plan_of result ≡ plan_by self }
        ensures held { held_of result ≡ empty }
        ensures refused { refused_of result ≡ 0 }
        ensures history { history_of result ≡ told (makes_sets self) self.refusals }
    {
        let Configuration {
            sets,
            residency: _,
            sizes: _,
            refusals,
        } = self;
        SimMetal::new(alloc, sets.unwrap_or(true), refusals)
    }
}
