//! Laws of the definitions, each the contract of a function that does nothing.

ghost use Rattle.reg_model.specs.Laws.{AccessComesFirst, DenialsKeep, DenialsName, EmptySound, FilesHaveRoom, GrantsArePolicy, IndexPathsAreOfCrates, PlainDenials, PlainFinds, PlainOutcomes, RefusalsKeep, RunsJoin, RunsKeepSound, SightAnswers, StemsGrow, StepsAgree, StepsKeepSound, StepsRun, WiderAllows, WiderOrders};
ghost use Rattle.reg_model.specs.TrailLaws.{LinesAreRead, LinesNameAskers, MarksAreRead, MarksAreReplayed, MarksShowGaps, OwnersAreTold, PublicationsAreTold, SameTrails, ToldChange, TrailOfOne, TrailsJoin, TrailsReplay, UntoldKeep, YanksAreTold};

/// Steps in a row form a run.
pub fn run_law()
    ensures step { StepsRun }
    ensures join { RunsJoin }
{}

/// A denied request and a refused command change nothing.
pub fn denial_law()
    ensures denied { DenialsKeep }
    ensures refused { RefusalsKeep }
{}

/// A request gets its first broken rule exactly when it breaks one, running out of memory aside.
pub fn names_law()
    ensures { DenialsName }
{}

/// The rules on access come first.
pub fn access_law()
    ensures { AccessComesFirst }
{}

/// An event has one answer and one next state, running out of memory aside.
pub fn agreement_law()
    ensures { StepsAgree }
{}

/// Index files only grow, yanked marks aside, and every state that is reached is sound.
pub fn growth_law()
    ensures grows { StemsGrow }
    ensures sound { RunsKeepSound }
{}

/// A crate has no more versions than its index file has room for.
pub fn room_law()
    ensures { FilesHaveRoom }
{}

/// What begins sound stays sound.
pub fn soundness_law()
    ensures empty { EmptySound }
    ensures step { StepsKeepSound }
    ensures run { RunsKeepSound }
{}

/// An index path is allowed exactly when it is the path of a visible crate's spelling.
pub fn index_law()
    ensures { IndexPathsAreOfCrates }
{}

/// The report on who may act lists exactly what the rules on access allow.
pub fn grant_law()
    ensures { GrantsArePolicy }
{}

/// A token's answers depend only on what it may see, publishing and adding owners aside.
pub fn sight_law()
    ensures { SightAnswers }
{}

/// If no crate is restricted, requests are denied and answered, and crates found, as before any
/// could be.
pub fn plain_law()
    ensures denied { PlainDenials }
    ensures outcomes { PlainOutcomes }
    ensures finds { PlainFinds }
{}

/// What is allowed under some limits is allowed under wider ones.
pub fn wider_law()
    ensures requests { WiderAllows }
    ensures commands { WiderOrders }
{}

/// An event has a line in the trail exactly when it changes something; a line can be read back.
pub fn line_law()
    ensures untold { UntoldKeep }
    ensures told { ToldChange }
    ensures read { LinesAreRead }
{}

/// The trail of a run is told event by event, and each line names who it was.
pub fn telling_law()
    ensures one { TrailOfOne }
    ensures join { TrailsJoin }
    ensures who { LinesNameAskers }
{}

/// A trail goes on over an opening: behind its mark, which changes nothing and shows a gap.
pub fn mark_law()
    ensures read { MarksAreRead }
    ensures replays { MarksAreReplayed }
    ensures gaps { MarksShowGaps }
{}

/// A trail tells all that its run did, but for what publications carry and the digests of tokens.
pub fn trail_law()
    ensures replays { TrailsReplay }
    ensures same { SameTrails }
    ensures publications { PublicationsAreTold }
    ensures yanks { YanksAreTold }
    ensures owners { OwnersAreTold }
{}
