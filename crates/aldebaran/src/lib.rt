// Plans as Aldebaran text (.aut): what a text of this form holds, read and written. Definitions and what is proved of them; no code.
#![tactic(auto)]
