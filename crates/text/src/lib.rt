// Words, decimal numbers and lists of numbers, as octets: definitions, in specs/. `put_text` puts them.
#![tactic(auto)]
