//! Plans: what to replay or run.

ghost use Rattle.std.specs.Prelude.{◌≡◌, map};

use partial_model::{Call, Sequence};
use partial_words::Sizes;
use std::marker::Model;

/// A plan: the sizes, the initial values, the calls of each port, and the turns. A plan text says all of
/// it.
#[derive(Debug, Drop)]
pub struct Plan {
    sizes: Sizes,
    initial: Vec<u64>,
    ports: Vec<Sequence<Call>>,
    steps: Vec<(u32, u32)>,
    rest: bool,
}

impl Model for Plan {
    ghost use Rattle.partial_text.specs.PlanText.{PlanView, IsPlan};

    ghost Value = { PlanView };

    ghost view = { λ p. record {
      sizes = p.sizes;
      initial = p.initial.items;
      ports = p.ports.items;
      steps = p.steps.items;
      rest = p.rest;
    } };

    ghost invariant = { λ p. IsPlan (record {
      sizes = p.sizes;
      initial = p.initial.items;
      ports = p.ports.items;
      steps = p.steps.items;
      rest = p.rest;
    }) };
}

/// What a plan text says.
#[derive(Drop)]
pub(crate) struct Parts {
    pub(crate) sizes: Sizes,
    pub(crate) initial: Vec<u64>,
    pub(crate) ports: Vec<Sequence<Call>>,
    pub(crate) steps: Vec<(u32, u32)>,
    pub(crate) rest: bool,
}

impl Plan {
    ghost use Rattle.partial_text.specs.PlanText.{IsPlan};
    ghost use Rattle.partial_text.specs.SeenParts.{seen_parts};

    pub(crate) fn from_parts(parts: Parts) -> Plan
        requires { IsPlan (seen_parts parts) }
        ensures { result ≡ seen_parts parts }
    {
        let Parts {
            sizes,
            initial,
            ports,
            steps,
            rest,
        } = parts;
        Plan {
            sizes,
            initial,
            ports,
            steps,
            rest,
        }
    }

    /// The sizes of the memory.
    pub fn sizes(&self) -> Sizes
        ensures value { result ≡ self.now.sizes }
        ensures lawful { IsPlan self.now }
    {
        self.sizes
    }

    /// The initial value of each component, by its index.
    pub fn initial(&self) -> &[u64]
        ensures value { result.now ≡ self.now.initial }
        ensures lawful { IsPlan self.now }
    {
        &self.initial
    }

    /// The calls of each port, in order. Ports are numbered from 0.
    pub fn ports(&self) -> &[Sequence<Call>]
        ensures value { result.now ≡ self.now.ports }
        ensures lawful { IsPlan self.now }
    {
        &self.ports
    }

    /// The turns, in order: the number of a port, and how many turns it takes in a row.
    pub fn steps(&self) -> &[(u32, u32)]
        ensures value { result.now ≡ self.now.steps }
        ensures lawful { IsPlan self.now }
    {
        &self.steps
    }

    /// Whether each port, in order, runs to its end after the turns.
    pub fn rest(&self) -> bool
        ensures value { result ≡ self.now.rest }
        ensures lawful { IsPlan self.now }
    {
        self.rest
    }
}
