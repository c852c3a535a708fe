// No code: layouts that give a record's parser and its bytes, and the laws that each undoes the other.
#![tactic(auto)]
