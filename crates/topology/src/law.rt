//! What topologies promise, as laws over their definitions. The functions here do nothing: their clauses are the
//! laws.

ghost use Rattle.std.specs.Prelude.{◌≡◌, ◌≤◌, ℕ, List, length, true, false, Some, None, ◌∷◌, [], codes, pos, negsuc};
ghost use Rattle.toml.specs.Data.{no_items, item, no_members, member, integer, array, table, string, boolean};
ghost use Rattle.interface.specs.Host.{Host, is_host};
ghost use Rattle.topology.specs.declared.network.CarrierKind.TheVariants as kind;
ghost use Rattle.topology.specs.Examples.{document, foreign_table, naming, naming_table, raw_document, imp_table};
ghost use Rattle.topology.specs.Examples.{line_table, two_imps, alone, one_line, imp_hosts, line, five_lines};
ghost use Rattle.topology.specs.Examples.{lone_imp, strangers_in, strangers_of, two};
ghost use Rattle.topology.specs.Topology.{AreSites, TopologyFields, most_network_lines, IsTopology, hosts_from};
ghost use Rattle.topology.specs.Topology.{hosts_of, has_host, has_ports, imp_of, sites_of, topology_of};
ghost use Rattle.topology.specs.Laws.{WorkedSites};

/// The hosts of a topology are those that its IMPs have.
pub fn hosts_of_imps()
    ensures { (t : TopologyFields) (h : Host) → IsTopology t → is_host (hosts_of t) h ≡ has_host t.imps h.imp h.host }
{}

/// The hosts of a topology are those that its sites list, one IMP after the other.
pub fn hosts_of_sites()
    ensures { (t : TopologyFields) → IsTopology t → hosts_of t ≡ hosts_from 0 (sites_of t) }
{}

/// No IMP has the number 0, the others go up to the greatest, and none has more than four hosts.
pub fn sites()
    ensures { (t : TopologyFields) → IsTopology t → AreSites (sites_of t) }
{}

/// IMPs 1 and 3 with one host and two: there is no site 2, and host 1 of IMP 3 comes last.
pub fn worked_sites()
    ensures { WorkedSites }
{}

/// Small documents, and what they describe.
#[tactic(auto, unfolding(crate::specs::Topology::numbered_below, crate::specs::Topology::hosts_below))]
pub fn worked_documents()
    // IMPs by rising number, lines as they are listed; without their keys the carrier is a subnet, and there are host programs
    ensures subnet { topology_of (document two_imps (one_line 2 1)) ≡ Some (record { carrier = kind.Subnet; raw = false; imps = imp_hosts 1 2 ∷ imp_hosts 2 1 ∷ []; lines = line 2 1 ∷ []; strangers = [] }) }
    ensures plain { topology_of (raw_document (codes "plain") two_imps) ≡ Some (record { carrier = kind.Plain; raw = true; imps = imp_hosts 1 2 ∷ imp_hosts 2 1 ∷ []; lines = []; strangers = [] }) }
    ensures no_lines { alone 63 0 ≡ Some (record { carrier = kind.Subnet; raw = false; imps = imp_hosts 63 0 ∷ []; lines = []; strangers = [] }) }

    // another carrier, another key, no IMP, the key of the IMPs missing
    ensures carrier { topology_of (raw_document (codes "Plain") two_imps) ≡ None }
    ensures other_key { topology_of (table (member (codes "imp") (array two_imps) (member (codes "name") (string []) no_members))) ≡ None }
    ensures no_imp { (topology_of (document no_items no_items) ≡ None) × (topology_of (table (member (codes "raw") (boolean true) no_members)) ≡ None) }

    // numbers of IMPs: 0, 64, 257, one that is negative, and one that occurs twice; five hosts
    ensures numbers { (alone 0 1 ≡ None) × (alone 64 1 ≡ None) × (alone 257 1 ≡ None) }
    ensures negative { imp_of (table (member (codes "hosts") (integer (pos 1)) (member (codes "id") (integer (negsuc 0)) no_members))) ≡ None }
    ensures twice { topology_of (document (item (imp_table 1 1) (item (imp_table 1 2) no_items)) no_items) ≡ None }
    ensures five_hosts { alone 1 5 ≡ None }

    // a third key of an IMP, or a missing one
    ensures third_key { imp_of (table (member (codes "hosts") (integer (pos 1)) (member (codes "id") (integer (pos 1)) (member (codes "name") (string []) no_members)))) ≡ None }
    ensures missing_key { imp_of (table (member (codes "id") (integer (pos 1)) no_members)) ≡ None }

    // a line to itself, to an IMP that isn't there, from one, and a second line between the same IMPs
    ensures to_itself { topology_of (document two_imps (one_line 1 1)) ≡ None }
    ensures open_end { (topology_of (document two_imps (one_line 1 3)) ≡ None) × (topology_of (document two_imps (one_line 3 1)) ≡ None) }
    ensures second_line { (topology_of (document two_imps (item (line_table 1 2) (one_line 1 2))) ≡ None) × (topology_of (document two_imps (item (line_table 1 2) (one_line 2 1))) ≡ None) }

    // five lines at an IMP, and six
    ensures ports { (has_ports (imp_hosts 1 0 ∷ []) five_lines ≡ true) × (has_ports (imp_hosts 1 0 ∷ []) (line 7 1 ∷ five_lines) ≡ false) }
{}

/// Small documents that name strangers, and what they describe.
#[tactic(auto, unfolding(crate::specs::Topology::numbered_below, crate::specs::Topology::hosts_below))]
pub fn worked_strangers()
    // the second of two hosts, and hosts 0 and 2 of three
    ensures one { topology_of (document (naming 2 2 (1 ∷ [])) no_items) ≡ Some (lone_imp (strangers_of 2 (1 ∷ []))) }
    ensures two { strangers_in (document (naming 1 3 (0 ∷ 2 ∷ [])) no_items) ≡ Some (strangers_of 1 (0 ∷ 2 ∷ [])) }

    // a number of no host, one that is there twice, and one that is out of order
    ensures no_host { topology_of (document (naming 2 2 (2 ∷ [])) no_items) ≡ None }
    ensures twice { topology_of (document (naming 2 2 (1 ∷ 1 ∷ [])) no_items) ≡ None }
    ensures order { topology_of (document (naming 2 2 (1 ∷ 0 ∷ [])) no_items) ≡ None }

    // of two IMPs only the second names host 1, whatever number the other's host has; the second names wrongly; no list
    ensures its_imp { strangers_in (two (imp_table 1 2) (naming_table 2 2 (1 ∷ []))) ≡ Some (strangers_of 2 (1 ∷ [])) }
    ensures second { topology_of (two (naming_table 1 2 (1 ∷ [])) (naming_table 2 2 (2 ∷ []))) ≡ None }
    ensures no_list { topology_of (two (foreign_table 1 2 (integer (pos 1))) (naming_table 2 2 (1 ∷ []))) ≡ None }

    // where nobody is named there are no strangers, whether an IMP has the key or not
    ensures nobody { (topology_of (document (naming 2 2 []) no_items) ≡ Some (lone_imp [])) × (topology_of (document (item (imp_table 2 2) no_items) no_items) ≡ Some (lone_imp [])) }

    // where there are no host programs a list may only be empty
    ensures raw { topology_of (raw_document (codes "plain") (naming 2 2 (1 ∷ []))) ≡ None }
    ensures raw_nobody { topology_of (raw_document (codes "subnet") (naming 2 2 [])) ≡ Some (record (lone_imp []) { raw = true }) }
{}

/// There are at most 157 lines: each has two ends, and each of 63 IMPs has five at most.
pub fn few_lines()
    ensures { (t : TopologyFields) → IsTopology t → length t.lines ≤ most_network_lines }
{}
