//! Laws about executions, each the contract of a function without parameters. Those about an
//! execution of a network, or about a network that is dispatched by a forward closed table with an
//! order (`IsDispatchedForward`; its closure is one), are about networks in which reaction is
//! instantaneous (`IsInstant`); the last two carry streams and acts to networks with a delay.

ghost use Rattle.execution_model.specs.Acts.{ActsAreEarliest, LastActsAreEarliest};
ghost use Rattle.execution_model.specs.Earliest.{FinishesAreEarliest, FeedsAreEarliest};
ghost use Rattle.execution_model.specs.ForwardExecutions.{ForwardExecutionsAreAlike};
ghost use Rattle.execution_model.specs.Laws.{DoneWhereNoneIsOpen, ForwardTablesAreGraphs};
ghost use Rattle.execution_model.specs.Laws.{EndsAreEarliest, ExecutionsAreOne};
ghost use Rattle.execution_model.specs.Laws.{FaithfulStreamsAreTaken};
ghost use Rattle.execution_model.specs.Paced.{SlimIsDueTheSame, ActsComeOneByOne, OneByOneIsAtOnce};
ghost use Rattle.execution_model.specs.ShownStreams.{ActsAreShown, StreamsAreShown};
ghost use Rattle.execution_model.specs.SlimLaws.{SlimFeedsAreTheSame};
ghost use Rattle.execution_model.specs.Laws.{FeedsAreTakenInTime, FeedsExecuteEarliest};
ghost use Rattle.execution_model.specs.Laws.{NoActsLeftIsWhole, StreamsAreExecuted};

/// A feed within the limit is taken exactly if its completions are in time: its moment is after the
/// last one fed, each listed point completes neither too soon nor too late and stands once, and
/// none is left out whose latest moment is reached. Then the moments are those before with the
/// listed points completed.
pub fn law_feeds_are_taken_in_time()
    ensures { FeedsAreTakenInTime }
{}

/// If a network in which reaction is instantaneous is dispatched by a table in an order, every
/// contingent point has completed, and no moment from some one on brings an act, every point has
/// come.
pub fn law_no_acts_left_is_whole()
    ensures { NoActsLeftIsWhole }
{}

/// From the start of a network that is dispatched by a forward closed table with an order, the
/// feeds of a list within the limit are all taken exactly if the list is a faithful stream that
/// continues, and exactly if each is in time. So the first refusal comes exactly when a stream
/// stops being faithful.
pub fn law_faithful_streams_are_taken()
    ensures { FaithfulStreamsAreTaken }
{}

/// After feeds that were all taken, the moments so far are those of the earliest schedule of every
/// situation that the stream fits, up to its last moment.
pub fn law_feeds_execute_earliest()
    ensures { FeedsExecuteEarliest }
{}

/// A stream of feeds that were all taken may be said to be done exactly if no contingent point is
/// open.
pub fn law_done_where_none_is_open()
    ensures { DoneWhereNoneIsOpen }
{}

/// The end makes the whole of the earliest schedule of every situation that the done stream fits.
pub fn law_ends_are_earliest()
    ensures { EndsAreEarliest }
{}

/// A stream has at most one execution: that of every situation that it fits is the same, as far as
/// the stream fixes it.
pub fn law_executions_are_one()
    ensures { ExecutionsAreOne }
{}

/// Feeds that were all taken make the execution of their stream: up to its last moment, and whole
/// at the end if no contingent point is open.
pub fn law_streams_are_executed()
    ensures { StreamsAreExecuted }
{}

/// A forward closed table of derivable edges of a network is a sound table: of keys that there are,
/// and of weights that a table may hold. So no other law here requires that of such a table.
pub fn law_forward_tables_are_graphs()
    ensures { ForwardTablesAreGraphs }
{}

/// From the start of a network that is dispatched by a forward closed table with an order, the acts
/// of a feed that is taken are those of the earliest schedule of every situation that the stream
/// fits: of the moments since the last feed, and of the moment itself.
pub fn law_acts_are_earliest()
    ensures { ActsAreEarliest }
{}

/// The acts of the end are those of the earliest schedule too, moment by moment until every point
/// has come.
pub fn law_last_acts_are_earliest()
    ensures { LastActsAreEarliest }
{}

/// A feed within the limit is taken exactly if the stream with its listing is faithful. Then the
/// moments and the acts are those of the earliest schedule of every situation that the stream fits,
/// and no strategy that controls the network plays any of the points that have come sooner there.
pub fn law_feeds_are_earliest()
    ensures { FeedsAreEarliest }
{}

/// The end is complete exactly if the stream, said to be done, is faithful. Then the moments are
/// the whole earliest schedule of every situation that the stream fits, the acts are all that
/// remained of it, and no strategy that controls the network plays any point sooner there.
pub fn law_finishes_are_earliest()
    ensures { FinishesAreEarliest }
{}

/// In every state that an execution reaches, a point is due by the lists without what others imply
/// exactly if it is by the lists that were made. In each such state the conditions of a point were
/// met when it came (`ArePaced`).
pub fn law_slim_is_due_the_same()
    ensures { SlimIsDueTheSame }
{}

/// From the start of a network that is dispatched by a forward closed table with an order, feeds,
/// ends and next due moments are the same by its lists without the lower bounds and waits that
/// others imply.
pub fn law_slim_feeds_are_the_same()
    ensures { SlimFeedsAreTheSame }
{}

/// Executions of a network by two forward closed tables with orders are alike: from the start every
/// list of feeds comes to the same moments and acts, or to its first refusal for the same cause;
/// from there every feed, every end and every next due moment is the same.
pub fn law_forward_executions_are_alike()
    ensures { ForwardExecutionsAreAlike }
{}

/// An act of a moment makes no other point due at this moment, and leaves every other point due as
/// it was.
pub fn law_acts_come_one_by_one()
    ensures { ActsComeOneByOne }
{}

/// The acts of a moment that are made one by one, the lowest point first, are the acts of the
/// moment.
pub fn law_one_by_one_is_at_once()
    ensures { OneByOneIsAtOnce }
{}

/// A stream lists what is shown of a network with a delay exactly if it is a stream of the shown
/// form, by the schedule as it is shown: so it is faithful to the one exactly if it is to the
/// other.
pub fn law_streams_are_shown()
    ensures { StreamsAreShown }
{}

/// The acts of a schedule are those of it as it is shown.
pub fn law_acts_are_shown()
    ensures { ActsAreShown }
{}
