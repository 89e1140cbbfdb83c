//! Laws of scenarios, each as the contract of a function that does nothing.
ghost use Rattle.std.specs.Prelude.{◌≡◌};
ghost use Rattle.scenario_reader.specs.BothWays.{APlansTextIsRead, ATextIsOfOnePlan};
ghost use Rattle.scenario_reader.specs.CsvRows.{CsvReadsRows};
ghost use Rattle.scenario_reader.specs.FoundRoutes.{FindsLeastRoutes, TellsNodesApart};
ghost use Rattle.scenario_reader.specs.ReadPlans.{RequestsGetTheLeastRoutes, WhatIsReadIsReadable};
ghost use Rattle.scenario_reader.specs.declared.reader.TheConstants.{MOST_BYTES};

/// The text of a plan, where it has at most 4,194,304 bytes, is read as that plan and its schedule, whose items then have the
/// numbers of their lines.
pub fn a_plans_text_is_read()
    ensures { APlansTextIsRead }
{}

/// A text of at most 4,194,304 bytes is the text of one plan only, with one schedule up to the numbers of lines.
pub fn a_text_is_of_one_plan()
    ensures { ATextIsOfOnePlan }
{}

/// Whatever bytes are read as a plan and a schedule, the plan keeps the rules of plans, its names are names, its quotas have eight loads,
/// and a route that it has as found is the least one between its two nodes; and the schedule is one that a scenario can have. So the
/// two laws above hold of every plan that was read.
pub fn what_is_read_is_readable()
    ensures { WhatIsReadIsReadable }
{}

/// Whatever bytes are read as a plan, each of its requests that was opened between two nodes goes over the route of the least walk from
/// the one to the other.
pub fn requests_get_the_least_routes()
    ensures { RequestsGetTheLeastRoutes }
{}

/// The route that is found from a node to another one is that of the least walk; where none is found, no walk of at most 16 links
/// leads there.
pub fn a_found_route_is_the_least()
    ensures { FindsLeastRoutes }
{}

/// Two nodes of a network have different numbers.
pub fn two_nodes_have_two_numbers()
    ensures { TellsNodesApart }
{}

/// A scenario may have at most 4,194,304 bytes.
pub fn a_scenario_has_at_most_4194304_bytes()
    ensures { MOST_BYTES ≡ 4194304 }
{}

/// The fields of a row of a table are those that a reader of CSV finds in its line.
pub fn csv_reads_rows_as_they_are_read()
    ensures { CsvReadsRows }
{}
