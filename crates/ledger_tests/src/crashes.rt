//! A move that stops at each of its writes and syncs, with each image of each disk, and the recovery after it, which stops in the same way.
use crate::processes::{Came, IMAGES, MADE, MOVED, Memory, Work, blank, copies_of, crash, process};
use outside::Image;
use std::alloc::Global;

/// How many writes and syncs a move has.
const CALLS: u64 = 27;

/// One course: where the move stops, the images of the disks, and then where the recovery stops, with the images of all three.
#[derive(Clone, Copy, PartialEq, Eq, Debug)]
struct Course {
    stop: u64,
    wishes: [Image; 3],
    again: Option<(u64, Image)>,
}

/// Whether this is all of the move where it must be, and nothing of it where it must be that. Before the gate of the record, which is the 20th call, nobody commits; from the
/// sync after it on, nobody aborts; and between them the gate may be on the disk or not.
fn is_whole(stop: u64, came: &Came) -> bool {
    let may_abort = stop <= 21;
    let may_commit = stop >= 21;
    came.trouble == None
        && !came.stopped
        && ((may_abort && came.amounts == MADE) || (may_commit && came.amounts == MOVED))
}

/// Whether what is shown from here on is whole, and the same again.
fn ends_well(alloc: Global, disks: Memory, stop: u64) -> Option<bool> {
    let (first, disks) = process(alloc, disks, Work::Show, None)?;
    let (second, _disks) = process(alloc, disks, Work::Show, None)?;
    let same = second.amounts == first.amounts && second.recovered == 0 && second.trouble == None;
    Some(is_whole(stop, &first) && same)
}

/// The disks after the move of a course, up to its recovery.
fn after_move(alloc: Global, made: &mut Memory, course: &Course) -> Option<Memory> {
    let disks = copies_of(alloc, made)?;
    let (_, mut disks) = process(alloc, disks, Work::Move, Some(course.stop))?;
    crash(&mut disks, course.wishes);
    Some(disks)
}

/// Whether a course ends well; nothing, where its recovery isn't stopped where it says.
fn goes_well(alloc: Global, made: &mut Memory, course: &Course) -> Option<Option<bool>> {
    let disks = after_move(alloc, made, course)?;
    let Some((number, wish)) = course.again else {
        return Some(Some(ends_well(alloc, disks, course.stop)?));
    };
    let (came, mut disks) = process(alloc, disks, Work::Show, Some(number))?;
    if !came.stopped {
        return Some(None);
    }
    crash(&mut disks, [wish; 3]);
    Some(Some(ends_well(alloc, disks, course.stop)?))
}

/// What the courses came to: how many there were, of the first kind and of the second, and the first that didn't end well.
#[derive(Clone, Copy, PartialEq, Eq, Debug)]
struct Tally {
    moves: u32,
    recoveries: u32,
    wrong: Option<Course>,
}

impl Tally {
    /// Goes the courses whose recovery is stopped with this image, up to the number where it isn't stopped any more.
    fn stop_again(
        &mut self,
        alloc: Global,
        made: &mut Memory,
        course: Course,
        wish: Image,
    ) -> Option<()> {
        for number in 1..=100 {
            let again = Course {
                again: Some((number, wish)),
                ..course
            };
            match goes_well(alloc, made, &again)? {
                Some(true) => self.recoveries = self.recoveries.saturating_add(1),
                Some(false) => {
                    self.wrong = Some(again);
                    return Some(());
                }
                None => return Some(()),
            }
        }
        None
    }

    /// Goes the courses of a stop with these images.
    fn go(
        &mut self,
        alloc: Global,
        made: &mut Memory,
        stop: u64,
        wishes: [Image; 3],
    ) -> Option<()> {
        let course = Course {
            stop,
            wishes,
            again: None,
        };
        if goes_well(alloc, made, &course)? == Some(true) {
            self.moves = self.moves.saturating_add(1);
        } else {
            self.wrong = Some(course);
        }
        for wish in IMAGES {
            self.stop_again(alloc, made, course, wish)?;
        }
        Some(())
    }
}

/// Goes all courses in which the log is left with this image.
fn courses(alloc: Global, log: Image) -> Option<Tally> {
    let (came, mut made) = process(alloc, blank(alloc)?, Work::Make, None)?;
    let mut courses = Tally {
        moves: 0,
        recoveries: 0,
        wrong: None,
    };
    if came.trouble != None || came.amounts != MADE {
        return None;
    }
    for stop in 1..=CALLS + 1 {
        for left in IMAGES {
            for right in IMAGES {
                courses.go(alloc, &mut made, stop, [log, left, right])?;
            }
        }
    }
    Some(courses)
}

#[test]
fn a_crash_that_loses_the_log_leaves_all_or_nothing(rt: HostRuntime) {
    let courses = courses(rt.alloc(), Image::Lose).expect(&rt, "memory");
    assert_eq!(&rt;
        courses,
        Tally {
            moves: 252,
            recoveries: 3564,
            wrong: None
        }
    );
}

#[test]
fn a_crash_that_keeps_the_log_leaves_all_or_nothing(rt: HostRuntime) {
    let courses = courses(rt.alloc(), Image::Keep).expect(&rt, "memory");
    assert_eq!(&rt;
        courses,
        Tally {
            moves: 252,
            recoveries: 3564,
            wrong: None
        }
    );
}

#[test]
fn a_crash_that_tears_the_log_leaves_all_or_nothing(rt: HostRuntime) {
    let courses = courses(rt.alloc(), Image::Torn).expect(&rt, "memory");
    assert_eq!(&rt;
        courses,
        Tally {
            moves: 252,
            recoveries: 3510,
            wrong: None
        }
    );
}
