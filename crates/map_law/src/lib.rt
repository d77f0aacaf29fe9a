// The map of a network (request L2): the exact bytes of its GeoJSON, as docs/GEOJSON.md lays them down. There is no code here.
//
// specs/Map: the bytes, what a reader must believe. proofs/Worked: yard A's map, and that of a small yard with zones, byte for byte.
//
// Rests on `law` and what it rests on. Settled: a map is a function of the network.
#![tactic(auto)]
