//! What C holds of a board: the address of a session, or nothing. The pointer is to a byte, since a pointer to a struct with a
//! `Vec` does not cross to C; a ghost field says which session it owns. Only here is a box taken apart, and made again. A call
//! takes the session out, works, and puts it back, so no call reads through the address.

ghost use Rattle.std.specs.Prelude.{◌≡◌, Option, None, Some, IfOk, IfErr, IsSome, is_some, option_map, false};
ghost use Rattle.std.specs.Box.Ownership.{box_owns};
ghost use Rattle.pgboard_c.specs.private.Held.{held};
ghost use Rattle.pg_board.specs.BoardRecord.{SessionRecord};

use crate::fault::{BoardFault, Fault};
use pg_board::Session;
use std::alloc::{Allocator, Global};
use std::marker::Model;
use std::mem::replace;
use std::ptr::null_mut;

/// A board of a C program, which declares this struct and sets it to zero before the first call. Zero is closed.
#[repr(C)]
pub struct Handle {
    pub(crate) held: Held,
    pub(crate) live: bool,
    ghost is: { live ≡ is_some held.value },
}

impl Handle {
    ghost use Rattle.pgboard_c.specs.Board.{session_in, IsLawfulSession, closed_fault};

    /// A handle of no session.
    pub fn closed(alloc: Global) -> Handle
        ensures { session_in result ≡ None }
    {
        Handle {
            held: Held::nothing(alloc),
            live: false,
        }
    }

    /// A handle that owns the session.
    pub fn holding(session: Box<Session>) -> Handle
        ensures board { session_in result ≡ Some session.value }
        ensures lawful { IsLawfulSession (session_in result) }
    {
        // for the proof: the contract of this call states what each session is
        let _game = session.game();
        Handle {
            held: Held::of(session),
            live: true,
        }
    }

    /// Whether the handle owns a session.
    pub fn is_open(&self) -> bool
        ensures { result ≡ is_some (session_in self.now) }
    {
        self.live
    }

    /// Takes the session out, and leaves the handle closed.
    pub fn take(&mut self, alloc: Global) -> Result<Box<Session>, Fault>
        ensures taken { IfOk result (λ b. session_in self.old ≡ Some b.value) }
        ensures closed { IfErr result (λ e. (session_in self.old ≡ None) × (e ≡ closed_fault)) }
        ensures lawful { IsLawfulSession (session_in self.old) }
        ensures left { session_in self.new ≡ None }
    {
        let Some(session) = replace(self, Handle::closed(alloc)).into_session() else {
            return Err(Fault::Board(BoardFault::Closed));
        };
        // for the proof: the contract of this call states what each session is
        let _game = session.game();
        Ok(session)
    }

    /// The session, if the handle owns one.
    pub(crate) fn into_session(self) -> Option<Box<Session>>
        ensures { option_map (λ b. b.value) result ≡ self.held.value }
    {
        let Handle { held, live } = self;
        if live {
            Some(held.into_box())
        } else {
            held.end();
            None
        }
    }
}

/// Frees the session.
impl Drop for Handle {
    fn drop(self) {
        drop(self.into_session());
    }
}

/// A session by its address, or nothing. It is not `Drop`: only `into_box` and `end` use it up, so no session is forgotten.
#[repr(C)]
pub struct Held {
    at: *mut u8,
    alloc: Global,
    pub ghost value: { Option SessionRecord },
}

impl Model for Held {
    ghost also_owns = { λ h. held h.alloc h.at h.value };
}

impl Held {
    /// No session.
    pub(crate) fn nothing(alloc: Global) -> Held
        ensures { result.value ≡ None }
    {
        Held {
            at: null_mut(),
            alloc,
        }
    }

    /// The session, by its address.
    pub(crate) fn of(session: Box<Session>) -> Held
        ensures { result.value ≡ Some session.value }
    {
        Held::of_parts(Parts::of(session))
    }

    /// The session in its box.
    pub(crate) fn into_box(self) -> Box<Session>
        requires { IsSome self.value }
        ensures { self.value ≡ Some result.value }
    {
        self.into_parts().into_box()
    }

    /// Uses up what holds no session.
    pub(crate) fn end(self)
        requires { is_some self.value ≡ false }
    {
        let Held {
            at: _at,
            alloc: _alloc,
        } = self;
    }

    /// The session of a box that was taken apart.
    fn of_parts(parts: Parts<Session, Global>) -> Held
        ensures { result.value ≡ Some parts.value }
    {
        let Parts { ptr, alloc } = parts;
        Held {
            at: ptr as *mut u8,
            alloc,
        }
    }

    /// The parts of the box of the session.
    fn into_parts(self) -> Parts<Session, Global>
        requires { IsSome self.value }
        ensures { self.value ≡ Some result.value }
    {
        let Held { at, alloc } = self;
        Parts {
            ptr: at as *mut Session,
            alloc,
        }
    }
}

/// A board may be used by one thread after another.
unsafe impl Send for Held {}

/// A box, taken apart.
struct Parts<T, A: Allocator> {
    ptr: *mut T,
    alloc: A,
    ghost value: { T },
}

impl<T, A: Allocator> Model for Parts<T, A> {
    ghost also_owns = { λ p. box_owns (A.dealloc_token p.alloc) T.row p.ptr p.value };
}

impl<T: Drop, A: Allocator> Parts<T, A> {
    /// The parts of a box.
    fn of(value: Box<T, A>) -> Parts<T, A>
        ensures { result.value ≡ value.value }
    {
        let (ptr, alloc) = Box::into_raw_with_allocator(value);
        Parts { ptr, alloc }
    }

    /// The box of these parts.
    fn into_box(self) -> Box<T, A>
        ensures { result.value ≡ self.value }
    {
        let Parts { ptr, alloc } = self;
        unsafe { Box::from_raw(alloc, ptr) }
    }
}
