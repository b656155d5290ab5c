//! Which resources were made and released since the device was handed in, for contracts alone.

ghost use Rattle.std.specs.Prelude.{◌≡◌, [], ◌∷◌};
ghost use Rattle.gpu_d3d12.specs.Journal.{events, with_made, number_in};

use gpu_device::History;
use gpu_device::d3d12::ID3D12Resource;
use gpu_values::Result;

/// A resource was made, or released.
#[derive(Clone, Copy)]
pub enum ResourceEvent {
    /// The device granted it.
    Made(ID3D12Resource),
    /// The device was told to release it.
    Released(ID3D12Resource),
}

/// The resources that were made and released, newest first. It has no bytes.
#[derive(Drop)]
pub struct Journal {
    history: History<ResourceEvent>,
}

impl Journal {
    /// Nothing happened.
    pub fn new() -> Self
        ensures { events result ≡ [] }
    {
        Journal {
            history: History::new(),
        }
    }

    /// One event more.
    pub fn push(&mut self, event: ResourceEvent)
        ensures { events self.new ≡ event ∷ events self.old }
    {
        self.history.push(&event);
    }

    /// A resource was asked for: one that is granted is made.
    pub fn note(&mut self, answer: &Result<ID3D12Resource>)
        ensures { events self.new ≡ with_made (number_in answer.now) (events self.old) }
    {
        if let Ok(resource) = answer {
            self.push(ResourceEvent::Made(*resource));
        }
    }
}
