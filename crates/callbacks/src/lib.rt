//! What is kept of a call of the library that calls the guest back: the search that `bsearch` makes with its comparator,
//! one probe at a time, and the one call of its routine that `pthread_once` makes.
//!
//! `begin` and `resume` tell a search's next probe or its end; who calls them runs the comparator in between. Their
//! contracts cite `probing` and `resumed`, one step of the search; `finds` says in `bsearch`'s own words what the steps
//! come to. `begin_once` makes the frame of `pthread_once`, which is over when its routine returns.
//! The rows of the guest's library and the definition of what a guest thread does next stand on it.
#![tactic(auto)]

ghost use Rattle.std.specs.Prelude.{◌≡◌, None, Some, ◌<◌, ◌+◌, ◌*◌, ◌%◌, ◌^◌};
ghost use Rattle.callbacks.specs.Frame.{element, middle, probe, probing, resumed, searched};
ghost use Rattle.callbacks.specs.Search.{Finds, IsOrdered, search_after};
ghost use Rattle.callbacks.specs.declared.Frame.{Frame as FrameData};
ghost use Rattle.std.specs.Prelude.{ℕ, ℤ};

/// A call of `bsearch` or `pthread_once` under way. Of a search: which elements are left. Of both: which function of
/// the guest runs, and where the call goes back to.
#[derive(Clone, Copy, PartialEq, Eq, Debug)]
pub struct Frame {
    /// The address of the key.
    pub key: u64,
    /// The address of the first element.
    pub base: u64,
    /// The first element that is left.
    pub lo: u64,
    /// One past the last element that is left.
    pub hi: u64,
    /// The size of an element in bytes.
    pub size: u64,
    /// The address of the comparator, or of the routine.
    pub compar: u64,
    /// The guest's stack pointer at the call.
    pub rsp: u64,
    /// The call's return address.
    pub back: u64,
    /// The address of the control of `pthread_once`. `None` exactly in a search.
    pub control: Option<u64>,
}

/// What a search wants next.
#[derive(Clone, Copy, PartialEq, Eq, Debug)]
pub enum Next {
    /// The comparator's answer for the element at this address.
    Probe(u64),
    /// Nothing: it ended at the element at this address, or with 0 where no element compares equal.
    Done(u64),
}

/// Begins a search among `n` elements of `size` bytes from `base`, with the first probe.
pub fn begin(
    key: u64,
    base: u64,
    n: u64,
    size: u64,
    compar: u64,
    rsp: u64,
    back: u64,
) -> (Frame, Next)
    requires { 0 < n }
    ensures { result ≡ probing (record { key = key; base = base; lo = 0; hi = n; size = size; compar = compar; rsp = rsp; back = back; control = None }) }
{
    let frame = Frame {
        key,
        base,
        lo: 0,
        hi: n,
        size,
        compar,
        rsp,
        back,
        control: None,
    };
    (frame, frame.next())
}

/// Begins the one call of the routine that `pthread_once` makes for a control: it stands as a search among one element
/// of no bytes, whose comparator is the routine (POSIX, pthread_once).
pub fn begin_once(control: u64, routine: u64, rsp: u64, back: u64) -> Frame
    ensures { result ≡ record { key = 0; base = 0; lo = 0; hi = 1; size = 0; compar = routine; rsp = rsp; back = back; control = Some control } }
{
    Frame {
        key: 0,
        base: 0,
        lo: 0,
        hi: 1,
        size: 0,
        compar: routine,
        rsp,
        back,
        control: Some(control),
    }
}

/// Goes on with the comparator's answer to the last probe: negative where the key is below the element, positive where
/// it is above, and 0 where they compare equal. After the routine of a control it is done with 0, whatever the answer.
#[tactic(auto, unfolding(crate::specs::Frame::resumed))]
pub fn resume(frame: &mut Frame, answer: i32) -> Next
    requires { frame.old.lo < frame.old.hi }
    ensures { (frame.new, result) ≡ resumed frame.old answer }
{
    match frame.control {
        Some(_) => Next::Done(0),
        None => search_on(frame, answer),
    }
}

/// The search goes on with the comparator's answer.
fn search_on(frame: &mut Frame, answer: i32) -> Next
    requires { frame.old.lo < frame.old.hi }
    ensures { (frame.new, result) ≡ searched frame.old answer }
{
    let middle = frame.middle();
    if answer < 0 {
        frame.hi = middle;
    } else if answer > 0 {
        frame.lo = middle + 1;
    } else {
        return Next::Done(frame.element(middle));
    }
    frame.next()
}

impl Frame {
    /// The control, where the call is one of `pthread_once`.
    pub fn once(&self) -> Option<u64>
        ensures { result ≡ self.now.control }
    {
        self.control
    }

    /// The element in the middle of those that are left.
    fn middle(&self) -> u64
        requires { self.now.lo < self.now.hi }
        ensures middle { result ≡ middle self.now }
        ensures within { result < self.now.hi }
    {
        self.lo + (self.hi - self.lo) / 2
    }

    /// The address of the element, modulo 2^64.
    fn element(&self, i: u64) -> u64
        ensures { result ≡ element self.now i }
    {
        self.base.wrapping_add(i.wrapping_mul(self.size))
    }

    /// The probe of the middle, or the end where no element is left.
    #[tactic(auto, unfolding(crate::specs::Frame::probe))]
    fn next(&self) -> Next
        ensures { result ≡ probe self.now }
    {
        if self.lo < self.hi {
            Next::Probe(self.element(self.middle()))
        } else {
            Next::Done(0)
        }
    }
}

/// With a comparator that answers by a sorted order, a search of `bsearch` ends within log2(n) + 1 probes, which is the least number
/// with n below 2 to it: at an element that compares equal, or with 0 where there is none.
pub fn finds()
    ensures { (f : FrameData) (probes : ℕ) (compare : ℕ → ℤ) → f.control ≡ None → f.hi < f.lo + 2 ^ probes → IsOrdered compare f → Finds compare f (search_after probes compare (probing f)) }
{}

#[cfg(test)]
mod tests {
    use super::*;

    #[test]
    fn searches_three_elements(rt: HostRuntime) {
        let (mut frame, first) = begin(0x402100, 0x402000, 3, 4, 0x401200, 0x7000, 0x401010);
        assert_eq!(rt; first, Next::Probe(0x402004));
        assert!(rt; frame.lo < frame.hi);
        let second = resume(&mut frame, 5);
        assert_eq!(rt; second, Next::Probe(0x402008));
        assert!(rt; frame.lo < frame.hi);
        let end = resume(&mut frame, -1);
        assert_eq!(rt; end, Next::Done(0));
        let (mut wide, _) = begin(0, 0xffff_ffff_ffff_fff8, 5, 8, 0, 0, 0);
        assert!(rt; wide.lo < wide.hi);
        assert_eq!(rt; resume(&mut wide, 0), Next::Done(8));
        assert_eq!(rt; wide.once(), None);
        finds();
    }

    #[test]
    fn runs_a_routine_once(rt: HostRuntime) {
        let mut frame = begin_once(0x402000, 0x401200, 0x7000, 0x401010);
        assert_eq!(rt; frame.once(), Some(0x402000));
        assert_eq!(rt;
            (frame.compar, frame.rsp, frame.back),
            (0x401200, 0x7000, 0x401010)
        );
        assert!(rt; frame.lo < frame.hi);
        assert_eq!(rt; resume(&mut frame, 5), Next::Done(0));
    }
}
