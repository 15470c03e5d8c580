//! What is kept of each thread and each lock, in tables by number. Past its end a table says of a
//! thread that it is idle, and of a lock that it is free.
ghost use Rattle.std.specs.Prelude.{◌≡◌, slice_index_or};

// How many blocks of the thread are open, whether it has made an event, whether it was forked and
// whether it was joined.
#[derive(Clone, Copy)]
pub(crate) struct ThreadState {
    pub(crate) depth: u32,
    pub(crate) acted: bool,
    pub(crate) forked: bool,
    pub(crate) joined: bool,
}

// `count` is how many more acquires than releases the holder has made. At 0 the lock is free, and
// the holder the last that it had.
#[derive(Clone, Copy)]
pub(crate) struct LockState {
    pub(crate) holder: u32,
    pub(crate) count: u32,
}

pub(crate) const IDLE: ThreadState = ThreadState {
    depth: 0,
    acted: false,
    forked: false,
    joined: false,
};

pub(crate) const FREE: LockState = LockState {
    holder: 0,
    count: 0,
};

#[inline(always)]
pub(crate) fn state_at<T: Copy>(table: &[T], number: u32, beyond: T) -> T
    ensures { result ≡ slice_index_or table.now number beyond }
{
    let place = number as usize;
    if place < table.len() {
        table[place]
    } else {
        beyond
    }
}
