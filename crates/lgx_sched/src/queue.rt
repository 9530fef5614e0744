// The tasks that are up, a queue for each priority.
ghost use Rattle.std.specs.Prelude.{◌≡◌, ◌≢◌, ◌<◌, ◌≤◌, true, ℕ, List, [], ◌∷◌, ◌++◌, drop, length, map, nat_eq, replicate, IfOk, slice_get, slice_set, slice_index_or};
ghost use Rattle.std.specs.Int.{bit_at};
ghost use Rattle.spec_base.specs.declared.limits.TheConstants.{MAX_TASKS, LEAST_PRIORITY};
ghost use Rattle.lgx_sched.specs.TableView.{front_of, pushed, popped};
ghost use Rattle.lgx_sched.specs.ReadyBits.{AreReady, FirstBit};

use arrayvec::ArrayVec;
use spec_base::limits::{LEAST_PRIORITY, MAX_TASKS};
use std::alloc::{AllocError, Global};
use std::marker::Model;

/// The tasks of one priority in the order of their turns.
#[derive(Drop)]
struct Queue {
    tasks: ArrayVec<u32, MAX_TASKS>,
}

impl Model for Queue {
    ghost use Rattle.std.specs.Prelude.{ℕ, List};

    ghost Value = { List ℕ };

    ghost view = { λ q. q.tasks.items };
}

impl Queue {
    /// A queue without a task.
    fn new() -> Queue
        ensures { result ≡ [] }
    {
        Queue {
            tasks: ArrayVec::new(),
        }
    }

    /// The task at place `i` of the queue.
    fn get(&self, i: usize) -> Option<u32>
        ensures { result ≡ slice_get self.now i }
    {
        self.tasks.as_slice().get(i).copied()
    }

    /// Whether it has no task.
    fn is_empty(&self) -> bool
        ensures { result ≡ nat_eq (length self.now) 0 }
    {
        self.tasks.is_empty()
    }

    /// Whether it has one task.
    fn is_single(&self) -> bool
        ensures { result ≡ nat_eq (length self.now) 1 }
    {
        self.tasks.len() == 1
    }

    /// Puts a task last.
    fn push(&mut self, t: u32)
        requires { length self.old < MAX_TASKS }
        ensures { self.new ≡ self.old ++ t ∷ [] }
    {
        self.tasks.push(t);
    }

    /// Takes out the first task, if there is one.
    fn pop_first(&mut self)
        ensures { self.new ≡ drop 1 self.old }
    {
        let _ = self.tasks.pop_at(0);
    }

    /// Takes out all tasks.
    fn clear(&mut self)
        ensures { self.new ≡ [] }
    {
        self.tasks.clear();
    }

    /// The queue once more.
    fn copied(&self) -> Queue
        ensures { result ≡ self.now }
    {
        Queue {
            tasks: tasks_again(self.tasks.as_slice()),
        }
    }

    /// Whether the queues are the same.
    fn is_same(&self, other: &Queue) -> bool
        ensures { result ≡ true → self.now ≡ other.now }
    {
        same_tasks(self.tasks.as_slice(), other.tasks.as_slice())
    }
}

/// These tasks once more.
fn tasks_again(tasks: &[u32]) -> ArrayVec<u32, MAX_TASKS>
    requires { length tasks.now ≤ MAX_TASKS }
    ensures { result.items ≡ tasks.now }
{
    let mut copy = ArrayVec::new();
    for task in tasks {
        copy.push(*task);
    }
    copy
}

/// Whether the tasks are the same, in the same order.
fn same_tasks(a: &[u32], b: &[u32]) -> bool
    ensures { result ≡ true → a.now ≡ b.now }
{
    if a.len() != b.len() {
        return false;
    }
    for i in 0..a.len() {
        if a[i] != b[i] {
            return false;
        }
    }
    true
}

/// These queues once more.
fn queues_again(alloc: Global, queues: &[Queue]) -> Result<Vec<Queue>, AllocError>
    ensures { IfOk result (λ copy. copy.items ≡ queues.now) }
{
    let mut list = Vec::with_capacity(alloc, queues.len())?;
    for queue in queues {
        list.push(queue.copied())?;
    }
    Ok(list)
}

/// Whether the queues are the same, one by one.
fn same_queues(a: &[Queue], b: &[Queue]) -> bool
    ensures { result ≡ true → a.now ≡ b.now }
{
    if a.len() != b.len() {
        return false;
    }
    for i in 0..a.len() {
        if !a[i].is_same(&b[i]) {
            return false;
        }
    }
    true
}

/// The tasks that are up. Contracts see a list of queues, the first of priority 1.
#[derive(Drop)]
pub struct Queues {
    queues: Vec<Queue>,
    /// A bit for each queue: whether it has a task.
    ready: u32,
    /// The front of the first queue that has a task.
    front: Option<u32>,
}

impl Model for Queues {
    ghost use Rattle.std.specs.Prelude.{◌≡◌, ℕ, List};
    ghost use Rattle.lgx_sched.specs.TableView.{front_of};
    ghost use Rattle.lgx_sched.specs.ReadyBits.{AreReady};

    ghost Value = { List (List ℕ) };

    ghost view = { λ q. q.queues.items };

    ghost invariant = { λ q. AreReady q.queues.items q.ready × (q.front ≡ front_of q.queues.items) };
}

impl Queues {
    /// An empty queue for each priority.
    pub fn new(alloc: Global) -> Result<Queues, AllocError>
        ensures { IfOk result (λ queues. queues ≡ replicate LEAST_PRIORITY []) }
    {
        let mut queues = Vec::with_capacity(alloc, LEAST_PRIORITY as usize)?;
        for _place in 0..LEAST_PRIORITY {
            queues.push(Queue::new())?;
        }
        Ok(Queues {
            queues,
            ready: 0,
            front: None,
        })
    }

    /// The queues once more.
    pub fn copied(&self, alloc: Global) -> Result<Queues, AllocError>
        ensures { IfOk result (λ copy. copy ≡ self.now) }
    {
        let queues = queues_again(alloc, &self.queues)?;
        Ok(Queues {
            queues,
            ready: self.ready,
            front: self.front,
        })
    }

    /// Whether the queues are the same.
    pub fn is_same(&self, other: &Queues) -> bool
        ensures { result ≡ true → self.now ≡ other.now }
    {
        same_queues(&self.queues, &other.queues)
    }

    /// The front of the first queue that has a task.
    #[inline(always)]
    pub fn front(&self) -> Option<u32>
        ensures { result ≡ front_of self.now }
    {
        self.front
    }

    /// Task number `i` of the queue at `place`.
    pub fn get(&self, place: usize, i: usize) -> Option<u32>
        ensures { result ≡ slice_get (slice_index_or self.now place []) i }
    {
        if place < self.queues.len() {
            let queue = &self.queues[place];
            queue.get(i)
        } else {
            None
        }
    }

    /// Whether the queue at `place` has one task.
    pub fn is_single(&self, place: usize) -> bool
        requires within { place < length self.now }
        ensures { result ≡ nat_eq (length (slice_index_or self.now place [])) 1 }
    {
        let queue = &self.queues[place];
        queue.is_single()
    }

    /// Takes out all tasks.
    pub fn clear(&mut self)
        ensures { self.new ≡ map (λ q. []) self.old }
    {
        empty(&mut self.queues);
        self.ready = 0;
        self.front = front_of(&self.queues, self.ready);
    }

    /// Puts a task last in the queue at `place`.
    pub fn push_last(&mut self, place: usize, t: u32)
        requires within { place < length self.old }
        requires room { length (slice_index_or self.old place []) < MAX_TASKS }
        ensures { self.new ≡ pushed self.old place t }
    {
        let queue = &mut self.queues[place];
        queue.push(t);
        self.ready = with_bit(self.ready, place);
        self.front = front_of(&self.queues, self.ready);
    }

    /// Takes out the first task of the queue at `place`, if there is one.
    pub fn pop_first(&mut self, place: usize)
        requires within { place < length self.old }
        ensures { self.new ≡ popped self.old place }
    {
        let queue = &mut self.queues[place];
        queue.pop_first();
        if queue.is_empty() {
            self.ready = without_bit(self.ready, place);
        }
        self.front = front_of(&self.queues, self.ready);
    }
}

/// The front of the first queue that has a task; the word says which queues have one.
fn front_of(queues: &[Queue], ready: u32) -> Option<u32>
    requires { AreReady queues.now ready }
    ensures { result ≡ front_of queues.now }
{
    match first_bit(ready) {
        Some(place) => queues[place].get(0),
        None => None,
    }
}

/// The least bit of a word that is 1.
#[inline(always)]
fn first_bit(word: u32) -> Option<usize>
    ensures { FirstBit word result }
{
    if word == 0 {
        None
    } else {
        Some(word.trailing_zeros() as usize)
    }
}

/// The word with this bit set.
#[inline(always)]
fn with_bit(word: u32, bit: usize) -> u32
    requires { bit < 32 }
    ensures set { bit_at result bit ≡ 1 }
    ensures others { (other : ℕ) → other ≢ bit → bit_at result other ≡ bit_at word other }
{
    word | 1 << bit
}

/// The word without this bit.
#[inline(always)]
fn without_bit(word: u32, bit: usize) -> u32
    requires { bit < 32 }
    ensures cleared { bit_at result bit ≡ 0 }
    ensures others { (other : ℕ) → other ≢ bit → bit_at result other ≡ bit_at word other }
{
    word & !(1 << bit)
}

/// Empties each queue.
fn empty(queues: &mut [Queue])
    ensures { queues.new ≡ map (λ q. []) queues.old }
{
    for queue in queues.iter_mut() {
        queue.clear();
    }
}
