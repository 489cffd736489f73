//! Laws of the definitions that the contracts cite, for proofs above: each is the contract of a function that does
//! nothing.

ghost use Rattle.std.specs.Prelude.{◌≡◌, ℕ, ◌+◌, ◌-◌, ◌<◌, ◌≤◌, Bool, true, false, List, [], ◌∷◌, ◌++◌, length, Some, None};
ghost use Rattle.std.specs.FinMap.{get};
ghost use Rattle.std.specs.Int.{byte_at};
ghost use Rattle.tso_memory.specs.declared.access.Access.{Access};
ghost use Rattle.tso_memory.specs.declared.write.PendingWrite.{PendingWrite};
ghost use Rattle.tso_memory.specs.Buffer.{covers, seen};
ghost use Rattle.tso_memory.specs.Memory.{Memory, cell_of, first_denied, may, memory_of, number_from, put_at, put_bytes};
ghost use Rattle.tso_memory.specs.Piece.{AreApart, PieceData, has, piece_at};

/// What stands at an address after bytes are put into a memory; no right changes.
pub fn bytes_put()
    ensures cell { (m : Memory) (a x : ℕ) (bs : List ℕ) → get (put_bytes m a bs) x ≡ put_at a bs x (get m x) }
    ensures rights { (m : Memory) (a x : ℕ) (bs : List ℕ) (access : Access) → may (put_bytes m a bs) access x ≡ may m access x }
{}

/// What stands at an address of the memory of pieces.
pub fn pieces_laid()
    ensures there { (ps : List PieceData) (i x : ℕ) → AreApart ps → i < length ps → has (piece_at ps i) x ≡ true → get (memory_of ps) x ≡ Some (cell_of (piece_at ps i) x) }
    ensures elsewhere { (ps : List PieceData) (x : ℕ) → ((i : ℕ) → i < length ps → has (piece_at ps i) x ≡ false) → get (memory_of ps) x ≡ None }
{}

/// When an access is refused, and where.
pub fn refused_first()
    ensures allowed { (test : ℕ → Bool) (a n : ℕ) → ((x : ℕ) → a ≤ x → x < a + n → test x ≡ true) → first_denied test a n ≡ None }
    ensures first { (test : ℕ → Bool) (a n x : ℕ) → a ≤ x → x < a + n → ((y : ℕ) → a ≤ y → y < x → test y ≡ true) → test x ≡ false → first_denied test a n ≡ Some x }
    ensures each { (test : ℕ → Bool) (a n : ℕ) → first_denied test a n ≡ None → (x : ℕ) → a ≤ x → x < a + n → test x ≡ true }
{}

/// A thread sees its newest store at once.
pub fn newest_is_seen()
    ensures own { (ps : List PendingWrite) (p : PendingWrite) (x b : ℕ) → covers p x ≡ true → seen (ps ++ p ∷ []) x b ≡ byte_at (x - p.at) p.value }
    ensures others { (ps : List PendingWrite) (p : PendingWrite) (x b : ℕ) → covers p x ≡ false → seen (ps ++ p ∷ []) x b ≡ seen ps x b }
{}

/// A number depends on its bytes alone.
pub fn number_of_bytes()
    ensures { (n a : ℕ) (f g : ℕ → ℕ) → ((x : ℕ) → a ≤ x → x < a + n → f x ≡ g x) → number_from f n a ≡ number_from g n a }
{}
