//! Laws of the turns of services, over their definitions. The functions here do nothing: each clause is the law.

ghost use Rattle.std.specs.Prelude.{ℕ, List};
ghost use Rattle.ncp_control.specs.Command.{IsWord};
ghost use Rattle.host_pairs.specs.declared.notice.Notice.{Notice};
ghost use Rattle.host_services.specs.Named.{HasAsked, NamePeers};
ghost use Rattle.host_services.specs.Services.{ServiceDeskState, ServicesState};
ghost use Rattle.host_services.specs.Turns.{server_begun, services_told, user_begun};
ghost use Rattle.interface.specs.Host.{Host, IsAddress};

/// What services do to their host: its program has served what they have asked for and nothing else, one request after another, and
/// has refused none of that. They name peers by addresses, in numbers of their types, where their users did; they contact nobody.
pub fn asked()
    // where a host gets a notice
    ensures told { (notices : List Notice) (s : ServicesState) (d : ServiceDeskState) → NamePeers s → HasAsked d (services_told notices s d).1 }
    ensures told_named { (notices : List Notice) (s : ServicesState) (d : ServiceDeskState) → NamePeers s → NamePeers (services_told notices s d).0 }

    // where a server begins
    ensures server { (listen base : ℕ) (s : ServicesState) (d : ServiceDeskState) → HasAsked d (server_begun listen base s d).1 }
    ensures server_named { (listen base : ℕ) (s : ServicesState) (d : ServiceDeskState) → NamePeers s → NamePeers (server_begun listen base s d).0 }

    // where a user begins
    ensures user { (peer : Host) (listen own : ℕ) (s : ServicesState) (d : ServiceDeskState) → IsAddress peer → IsWord listen → HasAsked d (user_begun peer listen own s d).1 }
    ensures user_named { (peer : Host) (listen own : ℕ) (s : ServicesState) (d : ServiceDeskState) → IsAddress peer → IsWord listen → NamePeers s → NamePeers (user_begun peer listen own s d).0 }
{}
