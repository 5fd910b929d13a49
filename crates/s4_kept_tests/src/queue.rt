//! Each public call of queues, over several blocks.

use s4_queue::Queue;
use std::test::Fail;

enum Step {
    /// Room for so many more.
    Reserve(usize),
    /// So many numbers are put, from the first on.
    Push(u32, usize),
    /// So many are taken, from the first on.
    Pop(u32, usize),
    /// In the place of that index a number is put.
    Set(usize, u32),
    /// Before the item of that index a number is put.
    Insert(usize, u32),
    /// So many wait, with room for so many more.
    Waits(usize, usize),
    /// The first and the last are these.
    Ends(u32, u32),
    /// The item of that index is this.
    Item(usize, u32),
    /// So many are below that number.
    Below(u32, usize),
}

/// Of 200 numbers the first 100 are taken, and their room serves again.
const STEPS: [Step; 18] = [
    Step::Reserve(200),
    Step::Push(0, 200),
    Step::Waits(200, 0),
    Step::Ends(0, 199),
    Step::Item(63, 63),
    Step::Item(64, 64),
    Step::Below(150, 150),
    Step::Pop(0, 100),
    Step::Waits(100, 100),
    Step::Ends(100, 199),
    Step::Push(200, 99),
    Step::Waits(199, 1),
    Step::Below(250, 150),
    Step::Set(70, 170),
    Step::Item(70, 170),
    Step::Insert(0, 99),
    Step::Ends(99, 298),
    Step::Pop(99, 200),
];

/// Takes a step, and tells whether it could be taken and the answer is what is wanted.
fn holds(queue: &mut Queue<u32>, step: &Step) -> Result<bool, Fail> {
    match *step {
        Step::Reserve(more) => queue.reserve(more)?,
        Step::Push(first, count) => {
            for number in (first..).take(count) {
                if queue.room() == 0 {
                    return Ok(false);
                }
                queue.push(number);
            }
        }
        Step::Pop(first, count) => {
            for number in (first..).take(count) {
                if queue.pop() != Some(number) {
                    return Ok(false);
                }
            }
        }
        Step::Set(index, number) => {
            if index >= queue.len() {
                return Ok(false);
            }
            queue.set(index, number);
        }
        Step::Insert(index, number) => {
            if index > queue.len() || queue.room() == 0 {
                return Ok(false);
            }
            queue.insert(index, number);
        }
        _ => return Ok(is_told(queue, step)),
    }
    Ok(true)
}

/// Whether the answer to a question is what is wanted.
fn is_told(queue: &Queue<u32>, step: &Step) -> bool {
    match *step {
        Step::Waits(count, room) => queue.len() == count && queue.room() == room,
        Step::Ends(first, last) => queue.front() == Some(&first) && queue.back() == Some(&last),
        Step::Item(index, number) => {
            queue.get(index) == Some(&number) && index < queue.len() && queue[index] == number
        }
        Step::Below(number, count) => queue.partition_point(|item| *item < number) == count,
        _ => false,
    }
}

#[test]
fn items_come_in_their_order(rt: HostRuntime) -> Result<(), Fail> {
    let mut queue = Queue::new(rt.alloc());
    assert!(rt; queue.is_empty());
    for (index, step) in STEPS.iter().enumerate() {
        assert!(rt; holds(&mut queue, step)?, "step {index}");
    }
    assert!(rt; queue.is_empty());
    Ok(())
}
