// Locks that are opened for good, and closed again.
ghost use Rattle.std.specs.Prelude.{◌≡◌, ◌+◌, ◌≤◌, [], length, vec_capacity};

use std::sync::Mutex;

/// Takes what lies under locks out of them, in order. There is room for it, so that it takes no memory; and so there is for all of it under the
/// locks again.
pub(crate) fn unlock<T: Drop>(locks: &mut Vec<Mutex<T>>, opened: &mut Vec<T>)
    requires { length opened.old.items + length locks.old.items ≤ vec_capacity opened.old }
    ensures locks { (locks.new.items ≡ []) × (vec_capacity locks.new ≡ vec_capacity locks.old) }
    ensures opened { length opened.new.items ≡ length opened.old.items + length locks.old.items }
{
    locks.reverse();
    while let Some(lock) = locks.pop() {
        opened.push_reserved(lock.into_inner());
    }
}

/// Puts what was taken out of locks under them again, in order. There is room for it, so that it takes no memory.
pub(crate) fn lock<T: Drop>(opened: &mut Vec<T>, locks: &mut Vec<Mutex<T>>)
    requires { length locks.old.items + length opened.old.items ≤ vec_capacity locks.old }
    ensures { length locks.new.items ≡ length locks.old.items + length opened.old.items }
{
    opened.reverse();
    while let Some(one) = opened.pop() {
        locks.push_reserved(Mutex::new(one));
    }
}
