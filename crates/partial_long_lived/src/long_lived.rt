//! The long-lived memory: how it opens, and how it closes.

ghost use Rattle.std.specs.Prelude.{◌≡◌, ◌+◌, ◌*◌, ◌∷◌, length, IfOk, IfErr};
ghost use Rattle.std.specs.List.{AllByRecursion};
ghost use Rattle.partial_words.specs.Layout.{first_free, pool_base};
ghost use Rattle.partial_long_lived.specs.Rule.{newcomers};
ghost use Rattle.partial_long_lived.specs.Options.{MayNotOpen, MayOpen, announces_for, claimed_pool, layout_for};
ghost use Rattle.partial_long_lived.specs.Ports.{IsOf, new_ports};
ghost use Rattle.partial_long_lived.specs.Closing.{Closes, ClosesLawfully};
ghost use Rattle.partial_long_lived.specs.Shape.{IsShapeOf};
ghost use Rattle.partial_long_lived.specs.Inner.Opening.{IsLaidOut, OpensShape, opened};

use crate::closed::last_values;
use crate::open_error::OpenError;
use crate::options::{Options, shape};
use crate::port::Port;
use crate::rule::{About, Deals, Gathers, PortSeat, Words};
use crate::shape::Shape;
use crate::stand::Stand;
use partial_core::Core;
use partial_model::{Opening, Sequence};
use partial_table::Table;
use std::alloc::{AllocError, Global};
use std::marker::Model;

/// A memory of components that many threads share, and that never wears out. Its ports update, read and scan them. Every
/// call is wait-free, and none but `open` and `close` takes memory.
#[derive(Drop)]
pub struct LongLived {
    pub(crate) shape: Shape,
    pub(crate) table: Words,
}

impl Model for LongLived {
    ghost use Rattle.std.specs.Prelude.{◌≡◌};
    ghost use Rattle.partial_epochs.specs.Layout.{whole};
    ghost use Rattle.partial_long_lived.specs.Rule.{plan_of};
    ghost use Rattle.partial_long_lived.specs.Shape.{IsShapeOf};
    ghost use Rattle.partial_long_lived.specs.Ports.{MemoryView};

    ghost Value = { MemoryView };

    ghost view = { λ m. record { table = m.table.table_id; about = m.table.key } };

    ghost invariant = { λ m. IsShapeOf m.shape m.table.key ×
        (m.table.table_id.words ≡ whole (plan_of m.table.key)) × (m.table.table_id.slots ≡ 0) };
}

/// A memory that was not closed, since an allocation was refused: all that was handed in.
#[derive(Drop)]
pub struct Unclosed {
    /// The memory.
    pub memory: LongLived,
    /// The first port.
    pub port: Port,
    /// The other ports, in their order.
    pub rest: Vec<Port>,
}

// The words at opening: arena 0 is that of a memory with these values, and all other words are 0.
fn opening_words(alloc: Global, shape: &Shape, initial: &[u64]) -> Result<Vec<u64>, AllocError>
    requires { length initial.now ≡ shape.now.sizes.m }
    ensures { IfOk result (λ words. OpensShape shape.now initial.now words.items) }
{
    let sizes = shape.sizes;
    let mut words = vec![in alloc; 0; shape.whole() as usize]?;
    let base = shape.base(0) as usize;
    for w in 0..sizes.first_free() {
        words[base + w as usize] = sizes.opening_word(initial, w);
    }
    let carried = base + sizes.total() as usize;
    for j in 0..sizes.m() {
        words[carried + j as usize] = u64::from(sizes.initial_record(j));
    }
    Ok(words)
}

// Lays out the table of a memory of that shape with these values. The seat is that of all its ports.
fn lay_out(alloc: Global, shape: &Shape, initial: &[u64]) -> Result<(Words, PortSeat), AllocError>
    requires { length initial.now ≡ shape.now.sizes.m }
    ensures about { IfOk result (λ r. r.0.key ≡ opened shape.now initial.now) }
    ensures opened { IfOk
        result
        (λ r. IsLaidOut r.0.table_id r.0.key shape.now.ports r.1.table_id r.1.me) }
    ensures steps { IfOk result (λ r. r.1.steps ≡ 0) }
{
    let words = opening_words(alloc, shape, initial)?;
    let about = About {
        sizes: shape.sizes,
        opening: Opening {
            values: Sequence::from(Vec::from_slice(alloc, initial)?),
            first: u64::from(shape.sizes.pool_base()),
        },
        ports: shape.ports,
        arenas: shape.arenas,
        limit: shape.limit,
        announces: shape.announces,
    };
    Table::of_words(alloc, &words, &about)
}

// Makes the ports of a new memory in their order, each with a seat of its own.
fn deal(
    alloc: Global,
    shape: &Shape,
    words: &Words,
    mut seat: PortSeat,
) -> Result<Vec<Port>, AllocError>
    requires shape { IsShapeOf shape.now words.now.key }
    requires opened { IsLaidOut words.now.table_id words.now.key shape.now.ports seat.table_id seat.me }
    requires steps { seat.steps ≡ 0 }
    ensures { IfOk result (λ a. a.items ≡ new_ports words.now.table_id (newcomers words.now.key 0 shape.now.ports)) }
{
    let ports = shape.ports;
    let base = shape.base(0);
    let mut all = Vec::with_capacity(alloc, ports as usize)?;
    for number in 0..ports {
        let mut core = Core::new(alloc, shape.sizes, number)?;
        core.claim_ahead(shape.ahead());
        let collected = vec![in alloc; 0; shape.sizes.m() as usize]?;
        let token = words.split_seat::<Deals>(&mut seat);
        all.push_reserved(Port {
            stand: Stand {
                seat: token,
                shape: *shape,
                number,
                epoch: 0,
                arena: 0,
                base,
                passed: 0,
            },
            core,
            spent: false,
            collected,
            apart: [0; 16],
        });
    }
    Ok(all)
}

impl LongLived {
    /// Opens a memory whose components hold these values, and its ports, numbered from 0 in their order.
    ///
    /// # Errors
    /// [`OpenError::Ports`] exactly when there are not 1 to 255 ports; otherwise [`OpenError::Components`] exactly when there
    /// are not 1 to 65,536 values; otherwise [`OpenError::Lists`] exactly when the options ask for more than 65,536 list
    /// words; otherwise [`OpenError::Pool`] exactly when the pool would have more than 4,194,304 words; otherwise
    /// [`OpenError::OutOfMemory`] when an allocation was refused. Nothing was made then.
    pub fn open(
        alloc: Global,
        initial: &[u64],
        ports: u32,
        options: Options,
    ) -> Result<(LongLived, Vec<Port>), OpenError>
        ensures fits { IfOk result (λ _. MayOpen (length initial.now) ports options) }
        ensures sizes { IfOk result (λ r. r.0.about.sizes ≡ layout_for (length initial.now) ports options) }
        ensures limit { IfOk result (λ r. r.0.about.limit ≡ first_free r.0.about.sizes +
            claimed_pool (length initial.now) ports options) }
        ensures about { IfOk result (λ r. (r.0.about.ports ≡ ports) × (r.0.about.arenas ≡ 2 * ports)) }
        ensures announces { IfOk result (λ r. r.0.about.announces ≡ announces_for (length initial.now) ports options) }
        ensures values { IfOk result (λ r. r.0.about.opening.values ≡ initial.now) }
        ensures first { IfOk result (λ r. r.0.about.opening.first ≡ pool_base r.0.about.sizes) }
        ensures ports { IfOk result (λ r. r.1.items ≡ new_ports r.0.table (newcomers r.0.about 0 ports)) }
        ensures own { IfOk result (λ r. AllByRecursion (IsOf r.0) r.1.items) }
        ensures refused { IfErr result (MayNotOpen (length initial.now) ports options) }
    {
        let shape = shape(initial.len(), ports, options)?;
        let (table, seat) = lay_out(alloc, &shape, initial)?;
        let all = deal(alloc, &shape, &table, seat)?;
        Ok((LongLived { shape, table }, all))
    }

    /// Closes the memory with this port and these others: the values of its components after one history over all epochs,
    /// which begins with all that each of these ports had observed.
    ///
    /// # Errors
    /// [`Unclosed`] when an allocation was refused: it has the memory and the ports, as they were.
    pub fn close(self, alloc: Global, port: Port, mut rest: Vec<Port>) -> Result<Vec<u64>, Unclosed>
        requires port { IsOf self port }
        requires rest { AllByRecursion (IsOf self) rest.items }
        ensures closed { IfOk result (λ values. Closes self (port ∷ rest.items) values.items) }
        ensures lawful { IfOk result (λ values. ClosesLawfully self (port ∷ rest.items) values.items) }
        ensures refused { IfErr result (λ u. (u.memory ≡ self) × (u.port ≡ port) × (u.rest.items ≡ rest.items)) }
    {
        let Ok(mut values) = Vec::with_capacity(alloc, self.shape.sizes.m() as usize) else {
            return Err(Unclosed {
                memory: self,
                port,
                rest,
            });
        };
        let LongLived { shape, table } = self;
        let mut seat = port.into_seat();
        while let Some(port) = rest.pop() {
            table.join_seat::<Gathers>(&mut seat, port.into_seat());
        }
        let words = table.close_with(seat);
        last_values(&words, &shape, &mut values);
        words.free();
        Ok(values)
    }
}
