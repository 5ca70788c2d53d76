//! One block of memory, in three values of which none can be made outside of this file: where it begins, what lies
//! in it, and the right to free it. Only the four functions here follow a pointer.
ghost use Rattle.std.specs.Prelude.{◌≡◌, ℕ, ◌<◌, ◌≤◌, List, [], Some, length, slice_get, IfOk, ⊤};
ghost use Rattle.std_alloc.specs.Vec.Ownership.{FitsInBlock};
ghost use denote.RawPtr.{Ptr};
ghost use Rattle.dali_ring.specs.Block.{put_at, block_owns, block_lends, release_owns};

use std::alloc::{AllocError, Allocator};
use std::marker::{Model, PhantomData, Send};
use std::mem::{align_of, size_of};

/// Where a block begins. It may be copied, and nothing is owned by it.
pub(crate) struct Origin<T> {
    pointer: *mut T,
}

impl<T> Clone for Origin<T> {
    ghost is_clone = { λ x y. y ≡ x };

    ghost is_infallible = { λ _. ⊤ };

    fn clone(&self) -> Result<Origin<T>, AllocError> {
        Ok(*self)
    }
}

impl<T> Copy for Origin<T> {}

unsafe impl<T> Send for Origin<T> {}

/// The places of a block, each as large as a value. The first ones hold `items`; what lies in the others is not known.
///
/// It has no bytes: its holder has the block's origin too.
pub(crate) struct Places<T> {
    mark: PhantomData<*const T>,
    ghost origin: { Ptr },
    ghost count: { ℕ },
    ghost items: { List T },
}

impl<T> Model for Places<T> {
    ghost also_owns = { λ p. block_owns T.row p.origin p.count p.items };

    ghost also_shares = { λ p _ κ. block_lends T.row p.origin p.count p.items κ };
}

unsafe impl<T: Send> Send for Places<T> {}

/// The right to free a block of this many places, with the allocator that it came from. It has no bytes.
pub(crate) struct Release<T, A: Allocator> {
    mark: PhantomData<*const (T, A)>,
    ghost origin: { Ptr },
    ghost count: { ℕ },
    ghost alloc: { A },
}

impl<T, A: Allocator> Model for Release<T, A> {
    ghost also_owns = { λ r. release_owns T.row (A.dealloc_token r.alloc) r.origin r.count };
}

unsafe impl<T, A: Allocator + Send> Send for Release<T, A> {}

/// A block of so many places, none of which holds a value.
pub(crate) fn allocate<T, A: Allocator>(
    alloc: &A,
    count: usize,
) -> Result<(Origin<T>, Places<T>, Release<T, A>), AllocError>
    requires { FitsInBlock T.row count }
    ensures { IfOk result (λ r. (r.1.origin ≡ r.0.pointer) × (r.1.count ≡ count) × (r.1.items ≡ [])
        × (r.2.origin ≡ r.0.pointer) × (r.2.count ≡ count) × (r.2.alloc ≡ alloc.now)) }
{
    match alloc.allocate(count * size_of::<T>(), align_of::<T>()) {
        Ok(bytes) => {
            let origin = Origin {
                pointer: bytes as *mut T,
            };
            let places = Places { mark: PhantomData };
            let release = Release { mark: PhantomData };
            Ok((origin, places, release))
        }
        // The proof by hand goes through each arm.
        Err(error) => Err(error),
    }
}

/// Frees a block, and forgets what its places hold.
pub(crate) fn free<T, A: Allocator>(
    alloc: &A,
    origin: Origin<T>,
    count: usize,
    places: Places<T>,
    release: Release<T, A>,
)
    requires places { (places.origin ≡ origin.pointer) × (places.count ≡ count) }
    requires release { (release.origin ≡ origin.pointer) × (release.count ≡ count) × (release.alloc ≡ alloc.now) }
{
    let Places { mark: _ } = places;
    let Release { mark: _ } = release;
    unsafe {
        alloc.deallocate(
            origin.pointer as *mut u8,
            count * size_of::<T>(),
            align_of::<T>(),
        );
    }
}

impl<T> Places<T> {
    /// The value of a place that holds one.
    pub(crate) fn get(&self, origin: Origin<T>, index: usize) -> &T
        requires origin { origin.pointer ≡ self.now.origin }
        requires place { (index < self.now.count) × (index < length self.now.items) }
        ensures { slice_get self.now.items index ≡ Some result.now }
    {
        unsafe { &*origin.pointer.add(index) }
    }

    /// Puts a value into a place that holds one, which is forgotten, or into the first that holds none.
    pub(crate) fn put(&mut self, origin: Origin<T>, index: usize, item: T)
        requires origin { origin.pointer ≡ self.old.origin }
        requires place { (index < self.old.count) × (index ≤ length self.old.items) }
        ensures block { (self.new.origin ≡ self.old.origin) × (self.new.count ≡ self.old.count) }
        ensures items { self.new.items ≡ put_at index item self.old.items }
    {
        unsafe { origin.pointer.add(index).write(item) }
    }
}
