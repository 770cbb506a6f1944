//! Worked examples of reports in a book. The functions here do nothing: each clause is a row, computed over the definitions.

ghost use Rattle.std.specs.Prelude.{◌≡◌, []};
ghost use Rattle.host_services.specs.declared.report.Report.TheVariants as report;
ghost use Rattle.icp.specs.declared.outcome.Failure.TheVariants as failure;
ghost use Rattle.icp.specs.declared.outcome.Outcome.TheVariants as outcome;
ghost use Rattle.net_sim.specs.Reports.{BegunServer, BegunUser, IsBacked};
ghost use Rattle.net_sim.specs.WorkedReports.{connecting, said_by};
ghost use Rattle.sockets.specs.Worked.{first, second};

/// Which reports are so at their place, in an initial connection between a server of the first host, with socket 7 and base 100, and a
/// user of the second, with socket 16.
pub fn worked_reports()
    // each is done when both its ends were opened: the server at the fifth notice, the user at the seventh
    ensures server { IsBacked connecting (said_by first 5 (report.Server (outcome.Done 100 101))) }
    ensures user { IsBacked connecting (said_by second 7 (report.User (outcome.Done 18 19))) }

    // neither is before that, where one of the two ends isn't open yet
    ensures server_early { IsBacked connecting (said_by first 4 (report.Server (outcome.Done 100 101))) → ⊥ }
    ensures user_early { IsBacked connecting (said_by second 6 (report.User (outcome.Done 18 19))) → ⊥ }

    // nor with another socket
    ensures server_socket { IsBacked connecting (said_by first 5 (report.Server (outcome.Done 100 103))) → ⊥ }
    ensures server_base { IsBacked connecting (said_by first 5 (report.Server (outcome.Done 102 103))) → ⊥ }
    ensures user_socket { IsBacked connecting (said_by second 7 (report.User (outcome.Done 18 17))) → ⊥ }

    // nor at the other's host, nor past the last notice
    ensures server_elsewhere { IsBacked connecting (said_by second 7 (report.Server (outcome.Done 100 101))) → ⊥ }
    ensures user_elsewhere { IsBacked connecting (said_by first 7 (report.User (outcome.Done 18 19))) → ⊥ }
    ensures past { IsBacked connecting (said_by first 8 (report.Server (outcome.Done 100 101))) → ⊥ }

    // one that has failed may report so anywhere
    ensures failed { IsBacked connecting (said_by first 0 (report.Server (outcome.Failed failure.Refused))) }

    // no server began with an odd base, and no user with an odd socket
    ensures odd_base { (b : BegunServer []) → b.base ≡ 101 → ⊥ }
    ensures odd_own { (b : BegunUser []) → b.own ≡ 17 → ⊥ }
{}
