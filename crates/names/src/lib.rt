// Nodes and entries by name: definitions and laws of what directories do, Names to Names. No code.
#![tactic(auto)]
