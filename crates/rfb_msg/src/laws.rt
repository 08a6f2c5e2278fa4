//! Laws of the definitions, each as the contract of a function that does nothing.

ghost use Rattle.std.specs.Prelude.{◌≡◌, ℕ, false, List, [], ◌∷◌, ◌++◌, length, replicate, codes};
ghost use Rattle.rfb_msg.specs.declared.message.Encoding.TheVariants.{Hextile};
ghost use Rattle.rfb_msg.specs.declared.message.Message.TheVariants.{SetEncodings, Request, Cut};
ghost use Rattle.rfb_msg.specs.declared.message.Why.{Why};
ghost use Rattle.rfb_msg.specs.declared.message.Step.{Step};
ghost use Rattle.rfb_msg.specs.declared.message.Step.TheVariants.{Closed};
ghost use Rattle.rfb_msg.specs.Grammar.{Stage, AtVersion, Item, Version, Init, Said, stage_of, Spells, IsBegun};
ghost use Rattle.rfb_msg.specs.Kept.{Held};
ghost use Rattle.rfb_msg.specs.Standing.{Stands, IsClosed};
ghost use Rattle.rfb_msg.specs.Streams.{StreamFrom, Stream, BreaksOff, Feeds, items_of, NoneCloses};

/// Does nothing. Bytes spell at most one item of a stage, and no spelling of a stage begins
/// another.
pub fn one_spelling()
    ensures item { (bytes : List ℕ) (i j : Item) → stage_of i ≡ stage_of j
        → Spells bytes i → Spells bytes j → i ≡ j }
    ensures ends { (bytes more : List ℕ) (i j : Item) → stage_of i ≡ stage_of j
        → Spells bytes i → Spells (bytes ++ more) j → more ≡ [] }
{}

/// Does nothing. A new reader that is fed with bytes, one by one, tells the items of the stream
/// that they are, and stands for its rest; and unless it closes the bytes are a stream.
pub fn feeding_reads_streams()
    ensures told { (old new : Held) (bytes : List ℕ) (steps : List Step)
        → Stands old AtVersion [] → Feeds old bytes steps new
        → (items : List Item) (rest : List ℕ) (stream : Stream bytes items rest)
        → NoneCloses steps × (items_of steps ≡ items) × Stands new stream.0 rest }
    ensures heard { (old new : Held) (bytes : List ℕ) (steps : List Step)
        → Stands old AtVersion [] → Feeds old bytes steps new → NoneCloses steps
        → (end : Stage) × (rest : List ℕ) × StreamFrom AtVersion bytes (items_of steps) end rest
        × IsBegun end rest × Stands new end rest }
{}

/// Does nothing. A reader is closed at the first bad byte and nowhere else, and answers that byte
/// and all that follow alike.
pub fn bad_bytes_close()
    ensures first { (old new : Held) (bytes : List ℕ) (steps : List Step) (items : List Item)
        (why : Why) → Stands old AtVersion [] → Feeds old bytes steps new
        → (broken : BreaksOff AtVersion bytes items why) → (answered : List Step)
        × (steps ≡ answered ++ Closed why ∷ replicate (length broken.back) (Closed why))
        × NoneCloses answered × (items_of answered ≡ items) × IsClosed new why }
    ensures only { (old new : Held) (bytes : List ℕ) (steps : List Step) (why : Why)
        → Stands old AtVersion [] → Feeds old bytes steps new → IsClosed new why
        → BreaksOff AtVersion bytes (items_of steps) why }
    ensures later { (old new : Held) (bytes : List ℕ) (steps : List Step) (why : Why)
        → IsClosed old why → Feeds old bytes steps new
        → (steps ≡ replicate (length bytes) (Closed why)) × IsClosed new why }
{}

/// Does nothing. It doesn't matter where the bytes are cut.
pub fn cuts_do_not_matter()
    ensures joined { (prefix back : List ℕ) (old mid new : Held) (steps more : List Step)
        → Feeds old prefix steps mid → Feeds mid back more new
        → Feeds old (prefix ++ back) (steps ++ more) new }
    ensures parted { (prefix back : List ℕ) (old new : Held) (steps : List Step)
        → Feeds old (prefix ++ back) steps new
        → (first : List Step) × (mid : Held) × (more : List Step) × (steps ≡ first ++ more)
        × Feeds old prefix first mid × Feeds mid back more new }
{}

/// Does nothing. Its clauses say what some bytes spell: a version, a request, a list of encodings.
pub fn items_in_numbers()
    ensures version { Spells (codes "RFB 003.889" ++ 10 ∷ []) Version }
    ensures init { Spells (1 ∷ []) Init }
    ensures request { Spells (3 ∷ 0 ∷ 0 ∷ 1 ∷ 0 ∷ 0 ∷ 1 ∷ 0 ∷ 0 ∷ 1 ∷ [])
        (Said (Request false 1 0 256 1)) }
    ensures encodings { Spells (2 ∷ 0 ∷ 0 ∷ 2 ∷ 0 ∷ 0 ∷ 0 ∷ 7 ∷ 0 ∷ 0 ∷ 0 ∷ 5 ∷ [])
        (Said (SetEncodings Hextile)) }
    ensures text { Spells (6 ∷ 9 ∷ 9 ∷ 9 ∷ 0 ∷ 0 ∷ 0 ∷ 2 ∷ 7 ∷ 7 ∷ []) (Said Cut) }
{}
