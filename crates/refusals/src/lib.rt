// Refusals: why a call is refused, by the paper's number, and how a call asks (document 01, "What each call refuses").
#![tactic(auto)]

ghost use Rattle.std.specs.Prelude.{◌≡◌, true, false, MatchResult};
ghost use Rattle.refusals.specs.Refusals.{number_of};

// Each stands for its number of document 01, or of document 02, which adds some. 0 is none: a done call gives 0.
#[derive(Clone, Copy, PartialEq, Eq)]
pub enum Refusal {
    // The state is not sound.
    Unsound = 1,
    // The disk area or the slot buffer has a wrong length.
    BufferLength = 2,
    // The output or the data is not one block.
    BlockLength = 3,
    // n is out of range.
    DiskCount = 4,
    // b is out of range.
    BlockCount = 5,
    Stopped = 6,
    Running = 7,
    // The disk number is not below n.
    NoSuchDisk = 8,
    // The block number is not below b.
    NoSuchBlock = 9,
    DiskOffline = 10,
    // The disk is in the current set.
    DiskCurrent = 11,
    // No member of the current set is online.
    NoneLive = 12,
    // The labels in reach name no set.
    NoSet = 13,
    // They name more than one.
    SeveralSets = 14,
    // The power went after as many stores as the budget allowed.
    PowerLost = 15,
    // Fewer bytes than a label has, or than its map asks.
    LabelCutShort = 16,
    // A bit that names no field stands in the map.
    LabelMap = 17,
    // In label bytes, n is out of range or the number is not below it; or they are not those of the bay.
    LabelPlace = 18,
    // A present field is 0.
    LabelEmptyField = 19,
    // A set names a disk from n up, or omits its own disk.
    LabelSet = 20,
    // The output is shorter than the label.
    NoRoom = 21,
    // A dirty bit names no region.
    NoSuchRegion = 22,
    // The stage is not 1, 2 or 3.
    NoSuchStage = 23,
    // The disk is in reach.
    DiskOnline = 24,
    // A well-formed label differs from the stored one.
    OtherLabel = 25,
    // A line of the cabinet program that is no command.
    BadLine = 99,
}

impl Refusal {
    // By `as`: an enum's number has no other form.
    pub fn number(self) -> u8
        ensures { result ≡ number_of self }
    {
        self as u8
    }

    // A line of a call's paragraph: "Each refusal falls in the order of its paragraph, on its condition only." Lines
    // that stand one behind the other, each with a `?`, are the paragraph.
    pub fn when(self, condition: bool) -> Result<(), Refusal>
        ensures { MatchResult result (λ _. condition ≡ false) (λ refusal. (condition ≡ true) × (refusal ≡ self)) }
    {
        if condition { Err(self) } else { Ok(()) }
    }
}
