//! Triplicated circuits: cells, pins and connections, the values of a cycle, runs and faulty runs, and the
//! rules by which three copies mask each other's faults. There are definitions only.
#![tactic(auto)]
